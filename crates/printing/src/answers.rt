// The texts that are printed.
ghost use Rattle.std.specs.Prelude.{◌≡◌, ◌++◌, vec_items, IfOk, OnOk};
ghost use Rattle.reader.specs.Answers.{Gives};
ghost use Rattle.printing.specs.AnswerText.{fault_text, summary_text, summary_of, answer_text, TextOrFault};
ghost use Rattle.day.specs.Models.{day_model};
ghost use Rattle.terms.specs.Models.{ladder_model, terms_model};
ghost use Rattle.terms.specs.Written.{ladder_text, post_text, terms_text};

use crate::lines::fault_line;
use day::Day;
use fault::{Failure, Fault};
use reader::words;
use std::alloc::{AllocError, Global};
use terms::{LadderChoice, PostChoice, Terms};
use texts::Texts;
use writer::Lines;

const FAULT_KEY: &[u8] = b"fault=";

const LAYER_KEY: &[u8] = b"layer=";

const PLACE_KEY: &[u8] = b"place=";

const LINE_KEY: &[u8] = b"line=";

// The four lines of a fault in one of the two texts.
pub fn fault_text(heap: Global, texts: Texts<'_, '_>, fault: Fault) -> Result<Vec<u8>, AllocError>
    ensures { IfOk result (λ v. v.items ≡ fault_text texts.entry.terms.now texts.entry.day.now fault) }
{
    let mut lines = Lines::new(heap);
    lines.push_number_line(FAULT_KEY, fault.refusal.number())?;
    lines.push_line(LAYER_KEY, fault.layer.name().as_bytes())?;
    lines.push_number_line(PLACE_KEY, fault.place)?;
    lines.push_line(LINE_KEY, fault_line(texts, fault))?;
    Ok(lines.into_bytes())
}

// The text that was made, or the four lines of the fault that was met in its place.
pub fn text_or_fault(
    heap: Global,
    texts: Texts<'_, '_>,
    made: Result<Vec<u8>, Failure>,
) -> Result<Vec<u8>, AllocError>
    ensures { TextOrFault vec_items texts.entry.terms.now texts.entry.day.now made result }
{
    match made {
        Ok(text) => Ok(text),
        Err(Failure::Faulty(fault)) => fault_text(heap, texts, fault),
        Err(Failure::NoMemory) => Err(AllocError),
    }
}

// The ladder as the terms write it.
// Kept: no `Display`, since it writes text, and the words are bytes that reading and writing share.
fn push_ladder(lines: &mut Lines, ladder: &LadderChoice) -> Result<(), AllocError>
    ensures { OnOk result (lines.new ≡ lines.old ++ ladder_text (ladder_model ladder.now)) }
{
    match ladder {
        LadderChoice::Halving(steps) => {
            lines.push(words::HALVING_WORD)?;
            lines.push_number(*steps)
        }
        LadderChoice::Listed(divisors) => {
            lines.push(words::LISTED_WORD)?;
            lines.push_numbers(divisors.as_slice())
        }
    }
}

// The post as the terms write it.
// Kept: no `Display`, for the same reason as at the ladder.
fn post_text(post: PostChoice) -> &'static [u8]
    ensures { result.now ≡ post_text post }
{
    match post {
        PostChoice::Direct => words::DIRECT_WORD,
        PostChoice::Bit => words::BIT_WORD,
    }
}

// The four lines of the terms.
fn push_terms(lines: &mut Lines, terms: &Terms) -> Result<(), AllocError>
    ensures { OnOk result (lines.new ≡ lines.old ++ terms_text (terms_model terms.now)) }
{
    lines.push_number_line(words::OFFICES_KEY, terms.offices)?;
    lines.push_number_line(words::GRAIN_KEY, terms.grain)?;
    lines.push(words::LADDER_KEY)?;
    push_ladder(lines, &terms.ladder)?;
    lines.end_line()?;
    lines.push_line(words::POST_KEY, post_text(terms.post))
}

// The terms, and how many marks and lots there are.
// Kept: terms and day as two parameters, since the contract speaks of each apart and a struct of both would be taken apart at once.
fn summary_text(heap: Global, terms: &Terms, day: &Day<'_>) -> Result<Vec<u8>, AllocError>
    ensures { IfOk result (λ v. v.items ≡ summary_text (terms_model terms.now) (day_model day.now)) }
{
    let mut lines = Lines::new(heap);
    push_terms(&mut lines, terms)?;
    lines.push_number_line(words::MARKS_KEY, day.marks.len())?;
    lines.push_number_line(words::LOTS_KEY, day.lots.len())?;
    Ok(lines.into_bytes())
}

// What the two texts say, or their first fault.
fn summary(heap: Global, texts: Texts<'_, '_>) -> Result<Vec<u8>, Failure>
    ensures { Gives vec_items (summary_of texts.entry.terms.now texts.entry.day.now) result }
{
    let (agreed, played) = texts.read(heap)?;
    Ok(summary_text(heap, &agreed, &played)?)
}

// What the program prints of the two texts.
pub fn answer(heap: Global, texts: Texts<'_, '_>) -> Result<Vec<u8>, AllocError>
    ensures { IfOk result (λ v. v.items ≡ answer_text texts.entry.terms.now texts.entry.day.now) }
{
    let summary = summary(heap, texts);
    text_or_fault(heap, texts, summary)
}
