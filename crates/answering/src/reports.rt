// The report of a day under its terms: the ladder and the post are made, and the lots are played.
ghost use Rattle.day.specs.Models.{day_model};
ghost use Rattle.terms.specs.Models.{terms_model};
ghost use Rattle.answering.specs.Answers.{Reported};
ghost use Rattle.answering.specs.Playing.{ReportedOn, DirectReported, BitReported};

use crate::figures::report_of;
use bit_post::FrameCount;
use day::Day;
use fault::Failure;
use ladder::{Halving, Ladder, Listed};
use playing::{frames_of, play, play_over_wire};
use post::DirectPost;
use report::Report;
use std::alloc::Global;
use terms::{LadderChoice, PostChoice, Terms};
use wire::MarkedWire;

// The lots over a direct post.
fn report_direct<L: Ladder + Drop>(
    heap: Global,
    offices: u32,
    ladder: L,
    lots: &[u32],
) -> Result<Report, Failure>
    ensures { DirectReported offices (L.Ladder.steps ladder) (L.Ladder.slack ladder) lots.now result }
{
    let post = DirectPost::new(offices)?;
    let played = play(post, ladder, lots);
    Ok(report_of(heap, &played, FrameCount::new(0))?)
}

// The lots by the alternating bit over a wire with these marks.
fn report_bit<L: Ladder + Drop>(
    heap: Global,
    offices: u32,
    ladder: L,
    marks: &[u8],
    lots: &[u32],
) -> Result<Report, Failure>
    ensures { BitReported offices (L.Ladder.steps ladder) (L.Ladder.slack ladder) marks.now lots.now result }
{
    let wire = MarkedWire::new(heap, offices, marks)?;
    let played = play_over_wire(wire, ladder, lots);
    let frames = frames_of(&played.window);
    Ok(report_of(heap, &played, frames)?)
}

// The day on a ladder, over the post that the terms name.
// Kept: the terms and the day as two parameters, since the contract speaks of each apart and a struct of both would be taken apart at once.
fn report_on<L: Ladder + Drop>(
    heap: Global,
    terms: &Terms,
    ladder: L,
    day: &Day<'_>,
) -> Result<Report, Failure>
    ensures { ReportedOn (L.Ladder.steps ladder) (L.Ladder.slack ladder) (terms_model terms.now) (day_model day.now) result }
{
    match terms.post {
        PostChoice::Direct => report_direct(heap, terms.offices, ladder, day.lots.as_slice()),
        PostChoice::Bit => report_bit(heap, terms.offices, ladder, day.marks, day.lots.as_slice()),
    }
}

// The report of a day under its terms, or a fault if a number is out of its range.
// Kept: the terms and the day as two parameters, since the contract speaks of each apart and a struct of both would be taken apart at once.
pub fn day_report(heap: Global, terms: &Terms, day: &Day<'_>) -> Result<Report, Failure>
    ensures { Reported (terms_model terms.now) (day_model day.now) result }
{
    match &terms.ladder {
        LadderChoice::Halving(steps) => report_on(
            heap,
            terms,
            Halving::new(terms.grain, *steps)?,
            day,
        ),
        LadderChoice::Listed(divisors) => report_on(
            heap,
            terms,
            Listed::new(terms.grain, divisors.as_slice())?,
            day,
        ),
    }
}
