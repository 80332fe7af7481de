// A day of lots by the alternating bit over any wire, and the frames that it takes.
ghost use Rattle.std.specs.Prelude.{◌≡◌, ◌*◌, ◌≤◌};
ghost use Rattle.post.specs.Lanes.{all_sent};
ghost use Rattle.bit_post.specs.Became.{Became};
ghost use Rattle.bit_post.specs.Counted.{counts};
ghost use Rattle.bit_post.specs.declared.BitPost.{BitPost as BitPostOf};
ghost use Rattle.window.specs.Windows.{setting_for, setting_of, books_of};
ghost use Rattle.playing.specs.Days.{DayPlayed};
ghost use Rattle.playing.specs.Frames.{FramesByAttempts, Fresh, lanes_over};

use crate::day::{Played, play};
use bit_post::{BitPost, FrameCount};
use ladder::Ladder;
use window::Window;
use wire::Wire;

// The frames put for a window's messages, from when the post was made.
pub fn frames_of<W: Wire>(window: &Window<BitPost<W>>) -> FrameCount
    ensures value { result.count ≡ window.now.post.frames }
    ensures law { (p : BitPostOf W) → Fresh (counts W.Wire.offices W.Wire.troubles p) → Became (counts W.Wire.offices W.Wire.troubles p) (counts W.Wire.offices W.Wire.troubles window.now.post) (W.Wire.ran p.wire window.now.post.wire) → FramesByAttempts (books_of (lanes_over W.Wire.offices) window.now).messages result.count (W.Wire.troubles p.wire) (W.Wire.troubles window.now.post.wire) (W.Wire.ran p.wire window.now.post.wire) }
{
    window.post().frame_count()
}

// Plays the lots of a day over a wire.
pub fn play_over_wire<W: Wire, L: Ladder + Drop>(
    wire: W,
    ladder: L,
    lots: &[u32],
) -> Played<BitPost<W>>
    ensures setting { setting_of result.window ≡ setting_for (W.Wire.offices wire) (L.Ladder.steps ladder) (L.Ladder.slack ladder) }
    ensures day { DayPlayed (lanes_over W.Wire.offices) lots.now result }
    ensures frames { FramesByAttempts (books_of (lanes_over W.Wire.offices) result.window).messages result.window.post.frames (W.Wire.troubles wire) (W.Wire.troubles result.window.post.wire) (W.Wire.ran wire result.window.post.wire) }
    ensures counted { result.window.post.frames ≤ 131072 * all_sent (lanes_over W.Wire.offices result.window.post) }
{
    play(BitPost::new(wire), ladder, lots)
}
