// One send of a byte on a lane: attempts, until one is acknowledged.
ghost use Rattle.std.specs.Prelude.{◌≡◌, ◌+◌, ◌*◌, ◌/◌, ◌^◌, ◌<◌, ◌≤◌, not, ◌≢◌};
ghost use Rattle.post.specs.Lanes.{joined};
ghost use Rattle.post.specs.Tables.{slots_shown};
ghost use Rattle.wire.specs.Wires.{wire_lane, no_frames, PlacedBy};
ghost use Rattle.bit_post.specs.Frames.{acknowledgement};
ghost use Rattle.bit_post.specs.Sending.{delivered, MaySend, Tried, FarAfter, Sent};

use super::{drain, empty, next, place};
use crate::frame::Frame;
use offices::OfficeCount;
use post::LaneTable;
use wire::Wire;

// The byte, the bit that it is sent with, its lane, and the lane of the same office the other way, on which it is acknowledged.
// Kept: the wire, the table and the expected bit are parameters. A struct that borrows them may have no ghost field, so that each call would require what it does now; one that owned wire and table would have all the clauses about either.
#[derive(Clone, Copy)]
pub(super) struct Sending {
    lane: u32,
    back: u32,
    bit: bool,
    byte: u8,
    ghost pair: { back / 2 ≡ lane / 2 },
    ghost apart: { back ≢ lane },
}

impl Sending {
    pub(super) fn new(lane: u32, bit: bool, byte: u8) -> Sending
        requires { lane < 128 }
        ensures lane { result.lane ≡ lane }
        ensures bit { result.bit ≡ bit }
        ensures byte { result.byte ≡ byte }
    {
        let back = if lane % 2 == 0 { lane + 1 } else { lane - 1 };
        Sending {
            lane,
            back,
            bit,
            byte,
        }
    }

    // The far end has taken a data frame: with the expected bit it delivers the byte, and it acknowledges either way.
    fn answer<W: Wire>(
        self,
        wire: &mut W,
        table: &mut LaneTable,
        expected: &mut bool,
        bit: bool,
        byte: u8,
    )
        requires there { self.lane < 2 * W.Wire.offices wire.old }
        requires room { (wire_lane (W.Wire.lanes wire.old) self.back).places ≤ 14 }
        requires ready { expected.old ≡ bit → MaySend (slots_shown table.old) self.lane }
        ensures same { W.Wire.offices wire.new ≡ W.Wire.offices wire.old }
        ensures placed { PlacedBy (W.Wire.lanes wire.old) (W.Wire.troubles wire.old) self.back (acknowledgement bit) (W.Wire.lanes wire.new) (W.Wire.troubles wire.new) (W.Wire.ran wire.old wire.new) }
        ensures flips { expected.new ≡ not bit }
        ensures delivers { slots_shown table.new ≡ delivered bit expected.old (slots_shown table.old) self.lane byte }
    {
        if bit == *expected {
            table.send(OfficeCount::MOST, self.lane, byte).unwrap();
            *expected = !bit;
        }
        place(wire, self.back, Frame::Acknowledgement { bit });
    }

    // One attempt to send the byte, and whether it was acknowledged.
    fn attempt<W: Wire>(
        self,
        wire: &mut W,
        table: &mut LaneTable,
        expected: &mut bool,
        puts: &mut u32,
    ) -> bool
        requires there { self.lane < 2 * W.Wire.offices wire.old }
        requires clear { wire_lane (W.Wire.lanes wire.old) self.lane ≡ no_frames }
        requires clean { wire_lane (W.Wire.lanes wire.old) self.back ≡ no_frames }
        requires few { puts.old + 3 < 2 ^ 32 }
        requires ready { expected.old ≡ self.bit → MaySend (slots_shown table.old) self.lane }
        ensures same { W.Wire.offices wire.new ≡ W.Wire.offices wire.old }
        ensures clear { wire_lane (W.Wire.lanes wire.new) self.lane ≡ no_frames }
        ensures clean { wire_lane (W.Wire.lanes wire.new) self.back ≡ no_frames }
        ensures tried { Tried result (W.Wire.troubles wire.old) (W.Wire.troubles wire.new) puts.old puts.new (W.Wire.ran wire.old wire.new) }
        ensures far { FarAfter result self.bit self.lane self.byte expected.old (slots_shown table.old) expected.new (slots_shown table.new) }
    {
        let Sending { bit, byte, .. } = self;
        place(wire, self.lane, Frame::Data { bit, byte });
        *puts += 1;
        while let Some(number) = next(wire, self.lane) {
            if let Ok(Frame::Data { bit, byte }) = Frame::try_from(number) {
                self.answer(wire, table, expected, bit, byte);
                *puts += 1;
            }
        }
        drain(wire, self.back, Frame::Acknowledgement { bit })
    }

    // Makes as many attempts as it takes, and gives the number of frames put. Each attempt that fails costs the wire a trouble.
    pub(super) fn until_acknowledged<W: Wire>(
        self,
        wire: &mut W,
        table: &mut LaneTable,
        expected: &mut bool,
    ) -> u32
        requires there { self.lane < 2 * W.Wire.offices wire.old }
        requires agree { expected.old ≡ self.bit }
        requires ready { MaySend (slots_shown table.old) self.lane }
        ensures same { W.Wire.offices wire.new ≡ W.Wire.offices wire.old }
        ensures flips { expected.new ≡ not self.bit }
        ensures delivers { slots_shown table.new ≡ joined (slots_shown table.old) self.lane self.byte }
        ensures sent { Sent (W.Wire.troubles wire.old) (W.Wire.troubles wire.new) result (W.Wire.ran wire.old wire.new) }
        ensures few { result ≤ 131072 }
    {
        empty(wire, self.lane);
        empty(wire, self.back);
        let mut puts = 0;
        // Kept: a loop that `break` leaves, as the protocol is told.
        'attempts: loop {
            if self.attempt(wire, table, expected, &mut puts) {
                break;
            }
        }
        puts
    }
}
