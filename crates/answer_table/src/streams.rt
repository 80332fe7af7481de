// A table is read, and its answers are written.
ghost use Rattle.std.specs.Prelude.{List, ℕ, vec_items, IfSome, OnOk};
ghost use Rattle.std.specs.Io.KnownBytes.{Appends};
ghost use Rattle.answer_table.specs.Tables.{AnswersTable};

use crate::answers;
use crate::lines::{ended_answer, split_once};
use std::alloc::{AllocError, Global};
use std::io::{self, Read, Write};
use texts::Texts;

// Writes the answer to each line of the table, and a line end after it, before the next line is answered.
fn write_answers<W: Write, F: Fn(Global, Texts<'_, '_>) -> Result<Vec<u8>, AllocError>>(
    heap: Global,
    table: &[u8],
    writer: &mut W,
    answer: F,
) -> anyhow::Result<()>
    requires { F.IsAlwaysCallable answer }
    ensures { OnOk result ((made : List ℕ) × AnswersTable vec_items (λ texts r. F.post answer heap texts r) table.now made × Appends (W.contents writer.old) (W.contents writer.new) made) }
{
    let mut rest = table;
    while let Some((line, after)) = split_once(rest, b'\n') {
        let made = ended_answer(heap, line, &answer)?;
        writer.write_all(made.as_slice())?;
        rest = after;
    }
    Ok(())
}

// Reads a whole table, and writes the answers to its lines and nothing else, each before the next line is answered. A failure is told in words.
pub fn run_by_line<R: Read, W: Write, F: Fn(Global, Texts<'_, '_>) -> Result<Vec<u8>, AllocError>>(
    heap: Global,
    reader: &mut R,
    writer: &mut W,
    answer: F,
) -> anyhow::Result<()>
    requires { F.IsAlwaysCallable answer }
    ensures { OnOk result (IfSome (R.remaining reader.old) (λ table. (made : List ℕ) × AnswersTable vec_items (λ texts r. F.post answer heap texts r) table made × Appends (W.contents writer.old) (W.contents writer.new) made)) }
{
    let mut table = Vec::new(heap);
    reader.read_to_end(&mut table)?;
    write_answers(heap, table.as_slice(), writer, answer)?;
    writer.flush()?;
    Ok(())
}

// Reads a whole table, answers its lines, and writes the answers and nothing else, all at once. A failure keeps its kind.
pub fn run<R: Read, W: Write, F: Fn(Global, Texts<'_, '_>) -> Result<Vec<u8>, AllocError>>(
    heap: Global,
    reader: &mut R,
    writer: &mut W,
    answer: F,
) -> io::Result<()>
    requires { F.IsAlwaysCallable answer }
    ensures { OnOk result (IfSome (R.remaining reader.old) (λ table. (made : List ℕ) × AnswersTable vec_items (λ texts r. F.post answer heap texts r) table made × Appends (W.contents writer.old) (W.contents writer.new) made)) }
{
    let mut table = Vec::new(heap);
    reader.read_to_end(&mut table)?;
    let all = answers(heap, table.as_slice(), answer)?;
    writer.write_all(all.as_slice())?;
    writer.flush()
}
