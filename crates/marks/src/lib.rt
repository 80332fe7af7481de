// A mark: what a wire is to do with one frame that is put.
#![tactic(auto)]

ghost use Rattle.std.specs.Prelude.{◌≡◌};
ghost use Rattle.marks.specs.MarkBytes.{is_mark, MarkRead};

use fault::Refusal;

#[derive(Clone, Copy, Debug, PartialEq, Eq)]
pub enum Mark {
    // The frame joins its lane once: `.`.
    Once,
    // It is lost: `-`.
    Lost,
    // It joins twice: `+`.
    Twice,
}

impl TryFrom<u8> for Mark {
    type Error = Refusal;

    ghost try_from_gives = { MarkRead };

    fn try_from(byte: u8) -> Result<Mark, Refusal> {
        if !Mark::is_written(byte) {
            return Err(Refusal::NotAMark);
        }
        Ok(match byte {
            b'-' => Mark::Lost,
            b'+' => Mark::Twice,
            _ => Mark::Once,
        })
    }
}

impl Mark {
    // Whether a byte is a mark.
    pub fn is_written(byte: u8) -> bool
        ensures { result ≡ is_mark byte }
    {
        matches!(byte, b'.' | b'-' | b'+')
    }
}
