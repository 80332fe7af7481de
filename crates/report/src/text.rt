// The text of a report.
ghost use Rattle.std.specs.Prelude.{◌≡◌, [], ◌++◌, IfOk, OnOk};
ghost use Rattle.reader.specs.Lists.{commas};
ghost use Rattle.reader.specs.Readings.{line};
ghost use Rattle.reader.specs.Words.{closed_key};
ghost use Rattle.report.specs.Models.{report_model};
ghost use Rattle.report.specs.ReportText.{closed_text, report_text};

use crate::Report;
use reader::words;
use std::alloc::{AllocError, Global};
use writer::Lines;

// The line of the lot that closed the window, with a word in place of its number if none did.
fn push_closed(lines: &mut Lines, closed: Option<usize>) -> Result<(), AllocError>
    ensures { OnOk result (lines.new ≡ lines.old ++ line closed_key (closed_text closed) []) }
{
    match closed {
        Some(lot) => lines.push_number_line(words::CLOSED_KEY, lot),
        None => lines.push_line(words::CLOSED_KEY, words::NO_WORD),
    }
}

// A line with a list for its value.
fn push_list(lines: &mut Lines, key: &[u8], numbers: &[u32]) -> Result<(), AllocError>
    ensures { OnOk result (lines.new ≡ lines.old ++ line key.now (commas numbers.now) []) }
{
    lines.push(key)?;
    lines.push_numbers(numbers)?;
    lines.end_line()
}

// The nine lines of a report.
pub fn report_text(heap: Global, report: &Report) -> Result<Vec<u8>, AllocError>
    ensures { IfOk result (λ v. v.items ≡ report_text (report_model report.now)) }
{
    let mut lines = Lines::new(heap);
    push_closed(&mut lines, report.closed)?;
    lines.push_number_line(words::STEP_KEY, report.step)?;
    lines.push_number_line(words::SIGNALS_KEY, report.signals)?;
    lines.push_number_line(words::MESSAGES_KEY, report.messages.number())?;
    lines.push_number_line(words::FRAMES_KEY, report.frames.number())?;
    lines.push_number_line(words::ACCEPTED_KEY, report.accepted)?;
    lines.push_number_line(words::LATE_KEY, report.late)?;
    push_list(&mut lines, words::CREDITS_KEY, report.credits.as_slice())?;
    push_list(
        &mut lines,
        words::REMAINDERS_KEY,
        report.remainders.as_slice(),
    )?;
    Ok(lines.into_bytes())
}
