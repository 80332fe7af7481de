// A report in a buffer that the caller lends.
ghost use Rattle.std.specs.Prelude.{◌≡◌};
ghost use Rattle.report.specs.Models.{report_model};
ghost use Rattle.report.specs.ReportText.{report_text};
ghost use Rattle.report.specs.Written.{written, Writes};

use crate::{Report, report_text};
use fault::{Failure, Fault, Layer, Refusal};
use std::alloc::Global;

// Copies the text to the start of the buffer and answers its length; in a shorter buffer nothing is written.
fn copy_to_start(text: &[u8], buffer: &mut [u8]) -> Result<usize, Fault>
    ensures value { (buffer.new, result) ≡ written text.now buffer.old }
{
    let needed = text.len();
    if needed > buffer.len() {
        return Err(Layer::Report.fault(Refusal::BufferTooShort, needed));
    }
    buffer[0..needed].copy_from_slice(text);
    Ok(needed)
}

// Writes the report to the start of the buffer and answers its length; what stands after it is kept, and a refused buffer is as it was.
pub fn write_report(heap: Global, report: &Report, buffer: &mut [u8]) -> Result<usize, Failure>
    ensures value { Writes (report_text (report_model report.now)) buffer.old result buffer.new }
{
    let text = report_text(heap, report)?;
    Ok(copy_to_start(text.as_slice(), buffer)?)
}
