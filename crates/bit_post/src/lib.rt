// The post that carries each byte over a wire by the alternating bit protocol (Bartlett, Scantlebury and Wilkinson, 1969).
#![tactic(auto)]

ghost use Rattle.std.specs.Prelude.{◌≡◌, ◌*◌, ◌≤◌};
ghost use Rattle.post.specs.Lanes.{all_sent};
ghost use Rattle.post.specs.Tables.{slots_shown};

use offices::LaneItems;
use post::LaneTable;

mod exchange;
mod frame;
mod frame_count;

pub use frame_count::FrameCount;

// The bit with which a lane's sender sends next, and the one that its far end expects: between calls they agree.
// Kept: both of them, since the protocol has one at each end and a reader looks for both; the ghost field says that they agree.
#[derive(Clone, Copy)]
struct LaneBits {
    sending: bool,
    expected: bool,
    ghost agree: { sending ≡ expected },
}

// A wire, what has come over it, the bits of each lane, the frames put, and the wire's troubles when the post was made.
// A send puts at most 131,072 frames: two, and two for each of 65,535 troubles.
// Kept: the bits stand in a table beside that of the lanes, since the direct post has none, and a lane table over more than lanes would name a parameter in each clause about them.
#[derive(Drop)]
pub struct BitPost<W> {
    wire: W,
    table: LaneTable,
    bits: LaneItems<LaneBits>,
    frames: u64,
    first_troubles: u32,
    ghost all_bits: { bits.offices.number ≡ 64 },
    ghost counted: { frames ≤ 131072 * all_sent (slots_shown table) },
}
