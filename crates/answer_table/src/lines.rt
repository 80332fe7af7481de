// The lines of a table, and their answers.
ghost use Rattle.std.specs.Prelude.{◌≡◌, ◌≤◌, [], length, vec_items, IfOk, MatchOption, ◌==◌};
ghost use Rattle.std.specs.List.{position, position_or_len};
ghost use Rattle.answer_table.specs.Tables.{CutsAt, AnswersLine, MakesMore, AnswersTable};

use crate::decode;
use std::alloc::{AllocError, Global};
use texts::Texts;

// Where such a byte stands first.
fn first_place(text: &[u8], byte: u8) -> Option<usize>
    ensures { result ≡ position (λ c. c == byte) text.now }
{
    text.iter().position(|c| *c == byte)
}

// What stands before the first such byte, and what stands after it.
pub(crate) fn split_once(text: &[u8], byte: u8) -> Option<(&[u8], &[u8])>
    ensures { MatchOption result (length text.now ≤ position_or_len (λ c. c == byte) text.now) (λ p. CutsAt byte text.now p.0.now p.1.now) }
{
    let place = first_place(text, byte)?;
    Some((&text[..place], &text[place + 1..]))
}

// The answer to one line: its terms stand before its first space, and its day after it, both escaped. A line without a space is the terms as they are.
fn answer_line<F: Fn(Global, Texts<'_, '_>) -> Result<Vec<u8>, AllocError>>(
    heap: Global,
    line: &[u8],
    answer: &F,
) -> Result<Vec<u8>, AllocError>
    requires { F.IsAlwaysCallable answer.now }
    ensures { IfOk result (λ v. AnswersLine (λ texts r. F.post answer.now heap texts r) line.now v) }
{
    let Some((terms, day)) = split_once(line, b' ') else {
        return answer(
            heap,
            Texts {
                terms: line,
                day: &[],
            },
        );
    };
    let terms = decode(heap, terms)?;
    let day = decode(heap, day)?;
    answer(
        heap,
        Texts {
            terms: terms.as_slice(),
            day: day.as_slice(),
        },
    )
}

// The answer to one line, and a line end after it.
pub(crate) fn ended_answer<F: Fn(Global, Texts<'_, '_>) -> Result<Vec<u8>, AllocError>>(
    heap: Global,
    line: &[u8],
    answer: &F,
) -> Result<Vec<u8>, AllocError>
    requires { F.IsAlwaysCallable answer.now }
    ensures { IfOk result (λ v. MakesMore vec_items (λ texts r. F.post answer.now heap texts r) [] line.now v.items) }
{
    let mut ended = answer_line(heap, line, answer)?;
    ended.push(b'\n')?;
    Ok(ended)
}

// The answer to each line of the table, and a line end after it; bytes after the last line end are no line.
pub fn answers<F: Fn(Global, Texts<'_, '_>) -> Result<Vec<u8>, AllocError>>(
    heap: Global,
    table: &[u8],
    answer: F,
) -> Result<Vec<u8>, AllocError>
    requires { F.IsAlwaysCallable answer }
    ensures { IfOk result (λ v. AnswersTable vec_items (λ texts r. F.post answer heap texts r) table.now v.items) }
{
    let mut made = Vec::new(heap);
    let mut rest = table;
    while let Some((line, after)) = split_once(rest, b'\n') {
        made.extend_from_slice(answer_line(heap, line, &answer)?.as_slice())?;
        made.push(b'\n')?;
        rest = after;
    }
    Ok(made)
}
