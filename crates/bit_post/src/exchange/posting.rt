// The post over a wire: its calls, and how many frames they put.
ghost use Rattle.std.specs.Prelude.{◌≡◌, ℕ, ◌-◌, ◌*◌, ◌<◌, [], replicate, refl};
ghost use Rattle.post.specs.Lanes.{no_lane};
ghost use Rattle.post.specs.Outs.{out};
ghost use Rattle.post.specs.Tables.{slots_shown, used};
ghost use Rattle.wire.specs.Wires.{wire_lane, no_frames};
ghost use Rattle.bit_post.specs.Became.{Became, FramesWithin};
ghost use Rattle.bit_post.specs.Counted.{counts};
ghost use Rattle.bit_post.specs.Lists.{send_list};
ghost use Rattle.post.specs.Shown.{used_sound};
ghost use Rattle.bit_post.specs.Becoming.{became_same, became_joins};

use super::empty;
use super::sending::Sending;
use crate::{BitPost, FrameCount, LaneBits};
use fault::{Fault, Layer};
use offices::{LaneItems, OfficeCount};
use post::{LaneTable, Post};
use wire::Wire;

impl<W: Wire> BitPost<W> {
    // A post over the wire, which has 1 to 64 offices; what waits on the wire is taken and dropped.
    pub fn new(mut wire: W) -> BitPost<W>
        ensures offices { W.Wire.offices result.wire ≡ W.Wire.offices wire }
        ensures troubles { W.Wire.troubles result.wire ≡ W.Wire.troubles wire }
        ensures rests { W.Wire.ran wire result.wire [] }
        ensures dropped { (i : ℕ) → i < 2 * W.Wire.offices wire → wire_lane (W.Wire.lanes result.wire) i ≡ no_frames }
        ensures lanes { slots_shown result.table ≡ replicate 128 no_lane }
        ensures in_use { used (W.Wire.offices result.wire) result.table ≡ replicate (2 * W.Wire.offices wire) no_lane }
        ensures frames { result.frames ≡ 0 }
        ensures first { result.first_troubles ≡ W.Wire.troubles wire }
    {
        for lane in 0..2 * wire.office_count() {
            empty(&mut wire, lane);
        }
        let first_troubles = wire.troubles_left();
        let at_first = LaneBits {
            sending: false,
            expected: false,
        };
        let all = OfficeCount::new(Layer::Post, OfficeCount::MOST).unwrap();
        BitPost {
            wire,
            table: LaneTable::new(),
            bits: LaneItems::new(all, at_first),
            frames: 0,
            first_troubles,
        }
    }

    // The frames put on the wire since the post was made.
    pub fn frame_count(&self) -> FrameCount
        ensures value { result.count ≡ self.now.frames }
    {
        FrameCount::new(self.frames)
    }

    // The wire's troubles left when the post was made, less those left now.
    pub fn troubles_used(&self) -> u32
        ensures value { result ≡ self.now.first_troubles - W.Wire.troubles self.now.wire }
    {
        self.first_troubles
            .saturating_sub(self.wire.troubles_left())
    }

    // The wire under the post.
    pub fn wire(&self) -> &W
        ensures value { result.now ≡ self.now.wire }
    {
        &self.wire
    }

    // Sends bytes on a lane up to the first that is refused. The frames put lie within the bounds of the bytes sent and the troubles spent.
    pub fn send_all(&mut self, lane: u32, bytes: &[u8]) -> Result<(), Fault>
        ensures became { Became (counts W.Wire.offices W.Wire.troubles self.old) (counts W.Wire.offices W.Wire.troubles self.new) (W.Wire.ran self.old.wire self.new.wire) }
        ensures did { out (used (W.Wire.offices self.new.wire) self.new.table) result ≡ send_list lane bytes.now (used (W.Wire.offices self.old.wire) self.old.table) }
        ensures frames { FramesWithin (counts W.Wire.offices W.Wire.troubles self.old) (counts W.Wire.offices W.Wire.troubles self.new) }
    {
        send_each(self, lane, bytes)
    }
}

// Over any post: sends bytes on a lane up to the first that is refused.
fn send_each<P: Post>(post: &mut P, lane: u32, bytes: &[u8]) -> Result<(), Fault>
    ensures became { P.Post.became post.old post.new }
    ensures did { out (P.Post.lanes post.new) result ≡ send_list lane bytes.now (P.Post.lanes post.old) }
{
    for byte in bytes {
        post.send(lane, *byte)?;
    }
    Ok(())
}

impl<W: Wire> Post for BitPost<W> {
    ghost offices = { λ p. W.Wire.offices p.wire };

    ghost lanes = { λ p. used (W.Wire.offices p.wire) p.table };

    ghost became = { λ p q. Became (counts W.Wire.offices W.Wire.troubles p) (counts W.Wire.offices W.Wire.troubles q) (W.Wire.ran p.wire q.wire) };

    ghost sound = { λ p. let law = W.Wire.sound p.wire in used_sound _ p.table law.some law.few };

    ghost stays = { λ p. became_same _ _ _ (W.Wire.rests p.wire) refl };

    ghost joins = { λ p q r a b. became_joins _ _ _ (W.Wire.ran p.wire q.wire) (W.Wire.ran q.wire r.wire) (W.Wire.ran p.wire r.wire) (W.Wire.goes p.wire q.wire r.wire) a b };

    fn office_count(&self) -> u32 {
        Wire::office_count(&self.wire)
    }

    fn sent_count(&self, lane: u32) -> Result<u32, Fault> {
        self.table.sent_count(self.wire.office_count(), lane)
    }

    fn waiting_count(&self, lane: u32) -> Result<u32, Fault> {
        self.table.waiting_count(self.wire.office_count(), lane)
    }

    fn send(&mut self, lane: u32, byte: u8) -> Result<(), Fault> {
        self.table.check_send(self.wire.office_count(), lane)?;
        let bits = *self.bits.get(lane).unwrap();
        let mut expected = bits.expected;
        let sending = Sending::new(lane, bits.sending, byte);
        let puts = sending.until_acknowledged(&mut self.wire, &mut self.table, &mut expected);
        let flipped = LaneBits {
            sending: !bits.sending,
            expected,
        };
        self.bits.set(lane, flipped);
        self.frames += u64::from(puts);
        Ok(())
    }

    fn take(&mut self, lane: u32) -> Result<Option<u8>, Fault> {
        self.table.take(self.wire.office_count(), lane)
    }
}
