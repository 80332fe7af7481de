// What a table of the lanes of a number of offices does.
ghost use Rattle.std.specs.Prelude.{◌≡◌, ◌*◌, ◌<◌, ◌≤◌, length, replicate, None, Ok, MatchResult, slice_set};
ghost use Rattle.fault.specs.Refused.{UnchangedIfErr};
ghost use Rattle.fault.specs.declared.Refusal.TheVariants.{NoSuchOfficeOrLane};
ghost use Rattle.post.specs.Lanes.{no_lane, lane as lane_at, lane_fault, all_sent, send as send_lane, take as take_lane, send_answer, sent_answer, waiting_answer};
ghost use Rattle.post.specs.Outs.{out};
ghost use Rattle.post.specs.Tables.{shown, lanes_of};

use super::OfficeLanes;
use crate::slot::Slot;
use fault::{Fault, Layer, Refusal};
use offices::{LaneItems, OfficeCount};

impl OfficeLanes {
    // The lanes of so many offices, on which nothing was ever sent.
    pub fn new(offices: OfficeCount) -> OfficeLanes
        ensures offices { result.slots.offices ≡ offices }
        ensures lanes { lanes_of result ≡ replicate (2 * offices.number) no_lane }
    {
        OfficeLanes {
            slots: LaneItems::new(offices, Slot::new()),
        }
    }

    // How many offices the lanes are for.
    pub fn office_count(&self) -> u32
        ensures { result ≡ self.now.slots.offices.number }
    {
        self.slots.office_count()
    }

    // The slot of a lane.
    // Kept: beside the same of wires, since it tells in the words of lanes what `get` tells of items.
    fn slot(&self, lane: u32) -> Result<&Slot, Fault>
        ensures { MatchResult result (λ s. (lane < length (lanes_of self.now)) × (shown s.now ≡ lane_at (lanes_of self.now) lane)) (λ f. (length (lanes_of self.now) ≤ lane) × (f ≡ lane_fault NoSuchOfficeOrLane lane)) }
    {
        self.slots.get(lane).ok_or(Layer::Post.fault(Refusal::NoSuchOfficeOrLane, lane as usize))
    }

    // Writes the slot of a lane; past the last lane nothing changes.
    // Kept: beside the same of wires, since it tells in the words of lanes what `set` tells of items. `offices` stands here and in the calls that change a lane, as one equation that a definition would not shorten.
    fn put(&mut self, lane: u32, slot: Slot)
        ensures offices { self.new.slots.offices ≡ self.old.slots.offices }
        ensures lanes { lanes_of self.new ≡ slice_set (lanes_of self.old) lane (shown slot) }
    {
        self.slots.set(lane, slot);
    }

    // Whether a byte may be sent on the lane.
    pub fn check_send(&self, lane: u32) -> Result<(), Fault>
        ensures { result ≡ send_answer (lanes_of self.now) lane }
    {
        self.slot(lane)?.check_room(lane)
    }

    // The byte joins the end of the lane; after a refusal the table is as it was.
    pub fn send(&mut self, lane: u32, byte: u8) -> Result<(), Fault>
        ensures did { out (lanes_of self.new) result ≡ send_lane lane byte (lanes_of self.old) }
        ensures offices { self.new.slots.offices ≡ self.old.slots.offices }
        ensures refused { UnchangedIfErr result self.old self.new }
    {
        let mut slot = *self.slot(lane)?;
        slot.send(lane, byte)?;
        self.put(lane, slot);
        Ok(())
    }

    // The first byte that waits leaves the lane; after a refusal, or if none waits, the table is as it was.
    pub fn take(&mut self, lane: u32) -> Result<Option<u8>, Fault>
        ensures did { out (lanes_of self.new) result ≡ take_lane lane (lanes_of self.old) }
        ensures offices { self.new.slots.offices ≡ self.old.slots.offices }
        ensures refused { UnchangedIfErr result self.old self.new }
        ensures none { result ≡ Ok None → self.new ≡ self.old }
        ensures total { all_sent (lanes_of self.new) ≡ all_sent (lanes_of self.old) }
    {
        let slot = self.slot(lane)?;
        if slot.waiting_count() == 0 {
            return Ok(None);
        }
        let mut slot = *slot;
        let byte = slot.take();
        self.put(lane, slot);
        Ok(byte)
    }

    // How many bytes were ever sent on the lane.
    pub fn sent_count(&self, lane: u32) -> Result<u32, Fault>
        ensures { result ≡ sent_answer (lanes_of self.now) lane }
    {
        Ok(self.slot(lane)?.sent_count())
    }

    // How many bytes wait on the lane.
    pub fn waiting_count(&self, lane: u32) -> Result<u32, Fault>
        ensures { result ≡ waiting_answer (lanes_of self.now) lane }
    {
        Ok(self.slot(lane)?.waiting_count())
    }
}
