// How frames are put on a lane of the wire and taken off it.
ghost use Rattle.std.specs.Prelude.{◌≡◌, ◌*◌, ◌<◌, ◌≤◌};
ghost use Rattle.wire.specs.Wires.{wire_lane, no_frames, Taken, PlacedBy};
ghost use Rattle.bit_post.specs.Frames.{frame_number};
ghost use Rattle.bit_post.specs.Sending.{among};
ghost use Rattle.bit_post.specs.Taking.{OnlyTakes};

use crate::frame::Frame;
use wire::Wire;

mod posting;
mod sending;

// The first frame of a lane that there is.
// Kept: a call tells its lane, and no struct of a wire and a lane is made, since two lanes of one wire are used in turn.
fn next<W: Wire>(wire: &mut W, lane: u32) -> Option<u16>
    requires { lane < 2 * W.Wire.offices wire.old }
    ensures only { OnlyTakes W.Wire.offices W.Wire.troubles W.Wire.lanes W.Wire.ran lane wire.old wire.new }
    ensures takes { Taken (wire_lane (W.Wire.lanes wire.old) lane) result (wire_lane (W.Wire.lanes wire.new) lane) }
{
    wire.take(lane).unwrap()
}

// Puts a frame on a lane that there is and that has room for it twice: the put is not refused.
// Kept: `same` stands at each call that puts. A definition of it would be as long, and as a law of wires it would be cited by hand wherever a lane has to be there.
fn place<W: Wire>(wire: &mut W, lane: u32, frame: Frame)
    requires there { lane < 2 * W.Wire.offices wire.old }
    requires room { (wire_lane (W.Wire.lanes wire.old) lane).places ≤ 14 }
    ensures same { W.Wire.offices wire.new ≡ W.Wire.offices wire.old }
    ensures placed { PlacedBy (W.Wire.lanes wire.old) (W.Wire.troubles wire.old) lane (frame_number frame) (W.Wire.lanes wire.new) (W.Wire.troubles wire.new) (W.Wire.ran wire.old wire.new) }
{
    wire.put(lane, frame.into()).unwrap();
}

// Takes every frame off a lane, and tells whether `frame` was among them.
fn drain<W: Wire>(wire: &mut W, lane: u32, frame: Frame) -> bool
    requires { lane < 2 * W.Wire.offices wire.old }
    ensures only { OnlyTakes W.Wire.offices W.Wire.troubles W.Wire.lanes W.Wire.ran lane wire.old wire.new }
    ensures empty { wire_lane (W.Wire.lanes wire.new) lane ≡ no_frames }
    ensures found { result ≡ among (frame_number frame) (wire_lane (W.Wire.lanes wire.old) lane).frames }
{
    let sought = u16::from(frame);
    let mut found = false;
    while let Some(taken) = next(wire, lane) {
        found |= taken == sought;
    }
    found
}

// Takes every frame off a lane, whatever it is.
// Kept: by `drain`, for which any frame serves, since a loop of its own would be proved the same way again.
fn empty<W: Wire>(wire: &mut W, lane: u32)
    requires { lane < 2 * W.Wire.offices wire.old }
    ensures only { OnlyTakes W.Wire.offices W.Wire.troubles W.Wire.lanes W.Wire.ran lane wire.old wire.new }
    ensures empty { wire_lane (W.Wire.lanes wire.new) lane ≡ no_frames }
{
    drain(wire, lane, Frame::Acknowledgement { bit: false });
}
