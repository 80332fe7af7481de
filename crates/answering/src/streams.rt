// How a text comes in, and how the answer to both texts goes out.
ghost use Rattle.std.specs.Prelude.{◌≡◌, List, ℕ, take, IfOk, IfSome, OnOk};
ghost use Rattle.std.specs.Io.KnownBytes.{Appends};
ghost use Rattle.answering.specs.Answers.{Printed};

use crate::answer;
use std::alloc::Global;
use std::io::{self, Read, Write};
use texts::Texts;

// One byte more than a text may have, so that a text that is too long is seen to be.
const READ_LIMIT: u64 = 65_536;

// The first bytes of a text, as many as are looked at.
pub fn read_start<R: Read + Drop>(heap: Global, reader: R) -> io::Result<Vec<u8>>
    ensures { IfOk result (λ v. IfSome (R.remaining reader) (λ bytes. v.items ≡ take 65536 bytes)) }
{
    let mut bytes = Vec::new(heap);
    reader.take(READ_LIMIT).read_to_end(&mut bytes)?;
    Ok(bytes)
}

// Writes the answer to the terms and the day, and nothing else.
pub fn print_answer<W: Write>(heap: Global, texts: Texts<'_, '_>, writer: &mut W) -> io::Result<()>
    ensures { OnOk result ((made : List ℕ) × Printed texts.entry.terms.now texts.entry.day.now made × Appends (W.contents writer.old) (W.contents writer.new) made) }
{
    let made = answer(heap, texts)?;
    writer.write_all(made.as_slice())?;
    writer.flush()
}
