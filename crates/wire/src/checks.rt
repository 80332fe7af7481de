// The tests that a marked wire is made by.
ghost use Rattle.std.specs.Prelude.{◌≡◌, not};
ghost use Rattle.std.specs.List.{position};
ghost use Rattle.std.specs.Result.{result_err};
ghost use Rattle.marks.specs.MarkBytes.{is_mark};
ghost use Rattle.wire.specs.Makers.{bytes_fault, marks_fault};

use fault::{Fault, Layer, Refusal};
use marks::Mark;

const MOST_MARKS: usize = 65_535;

// The number of the first byte that is no mark.
fn first_other(bytes: &[u8]) -> Option<usize>
    ensures { result ≡ position (λ b. not (is_mark b)) bytes.now }
{
    bytes.iter().position(|byte| !Mark::is_written(*byte))
}

// Tests each byte in turn.
fn check_bytes(bytes: &[u8]) -> Result<(), Fault>
    ensures { result_err result ≡ bytes_fault 0 bytes.now }
{
    match first_other(bytes) {
        Some(index) => Err(Layer::Wire.fault(Refusal::NotAMark, index)),
        None => Ok(()),
    }
}

// Tests how many marks there are, and then each of them.
pub(crate) fn check_marks(marks: &[u8]) -> Result<(), Fault>
    ensures { result_err result ≡ marks_fault marks.now }
{
    if marks.len() > MOST_MARKS {
        return Err(Layer::Wire.fault(Refusal::TextTooLong, MOST_MARKS));
    }
    check_bytes(marks)
}
