// The answer to two texts.
ghost use Rattle.std.specs.Prelude.{IfOk, vec_items};
ghost use Rattle.answering.specs.Answers.{Printed, Made};

use crate::reports::day_report;
use fault::Failure;
use printing::text_or_fault;
use report::report_text;
use std::alloc::{AllocError, Global};
use texts::Texts;

// The report of the day that the texts say, or their first fault.
fn day_text(heap: Global, texts: Texts<'_, '_>) -> Result<Vec<u8>, Failure>
    ensures { Made vec_items texts.entry.terms.now texts.entry.day.now result }
{
    let (agreed, played) = texts.read(heap)?;
    let report = day_report(heap, &agreed, &played)?;
    Ok(report_text(heap, &report)?)
}

// What the program prints of the terms and the day.
pub fn answer(heap: Global, texts: Texts<'_, '_>) -> Result<Vec<u8>, AllocError>
    ensures { IfOk result (λ v. Printed texts.entry.terms.now texts.entry.day.now v.items) }
{
    let made = day_text(heap, texts);
    text_or_fault(heap, texts, made)
}
