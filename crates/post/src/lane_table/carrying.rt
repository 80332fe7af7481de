// What a table of lanes does, for any number of offices that use it.
ghost use Rattle.std.specs.Prelude.{◌≡◌, ℕ, ◌*◌, ◌≤◌, true, replicate, is_ok, cond, None, Ok, Err, nat_le};
ghost use Rattle.fault.specs.Refused.{UnchangedIfErr};
ghost use Rattle.fault.specs.declared.Refusal.TheVariants.{NoSuchOfficeOrLane};
ghost use Rattle.post.specs.Lanes.{no_lane, lane_fault, joined, all_sent, send as send_lane, take as take_lane, send_answer, sent_answer, waiting_answer};
ghost use Rattle.post.specs.Outs.{out};
ghost use Rattle.post.specs.Tables.{slots_shown, used};

use super::LaneTable;
use crate::office_lanes::OfficeLanes;
use fault::{Fault, Layer, Refusal};
use offices::OfficeCount;

// Whether so many offices use a lane.
fn check_lane(offices: u32, lane: u32) -> Result<(), Fault>
    ensures { result ≡ cond (nat_le (2 * offices) lane) (Err (lane_fault NoSuchOfficeOrLane lane)) (Ok tt) }
{
    if lane / 2 >= offices {
        return Err(Layer::Post.fault(Refusal::NoSuchOfficeOrLane, lane as usize));
    }
    Ok(())
}

impl LaneTable {
    // Nothing was sent on any lane.
    pub fn new() -> LaneTable
        ensures whole { slots_shown result ≡ replicate 128 no_lane }
        ensures part { (k : ℕ) → k ≤ 64 → used k result ≡ replicate (2 * k) no_lane }
    {
        let offices = OfficeCount::new(Layer::Post, OfficeCount::MOST).unwrap();
        let lanes = OfficeLanes::new(offices);
        LaneTable { lanes }
    }

    // Whether a byte may be sent on the lane.
    pub fn check_send(&self, offices: u32, lane: u32) -> Result<(), Fault>
        ensures { result ≡ send_answer (used offices self.now) lane }
    {
        check_lane(offices, lane)?;
        self.lanes.check_send(lane)
    }

    // The byte joins the end of the lane; after a refusal the whole table is as it was.
    pub fn send(&mut self, offices: u32, lane: u32, byte: u8) -> Result<(), Fault>
        ensures did { out (used offices self.new) result ≡ send_lane lane byte (used offices self.old) }
        ensures refused { UnchangedIfErr result self.old self.new }
        ensures whole { is_ok result ≡ true → slots_shown self.new ≡ joined (slots_shown self.old) lane byte }
    {
        check_lane(offices, lane)?;
        self.lanes.send(lane, byte)
    }

    // The first byte that waits leaves the lane; after a refusal, or if none waits, the whole table is as it was.
    pub fn take(&mut self, offices: u32, lane: u32) -> Result<Option<u8>, Fault>
        ensures did { out (used offices self.new) result ≡ take_lane lane (used offices self.old) }
        ensures refused { UnchangedIfErr result self.old self.new }
        ensures none { result ≡ Ok None → self.new ≡ self.old }
        ensures whole { is_ok result ≡ true → out (slots_shown self.new) result ≡ take_lane lane (slots_shown self.old) }
        ensures total { all_sent (slots_shown self.new) ≡ all_sent (slots_shown self.old) }
    {
        check_lane(offices, lane)?;
        self.lanes.take(lane)
    }

    // How many bytes were ever sent on the lane.
    pub fn sent_count(&self, offices: u32, lane: u32) -> Result<u32, Fault>
        ensures { result ≡ sent_answer (used offices self.now) lane }
    {
        check_lane(offices, lane)?;
        self.lanes.sent_count(lane)
    }

    // How many bytes wait on the lane.
    pub fn waiting_count(&self, offices: u32, lane: u32) -> Result<u32, Fault>
        ensures { result ≡ waiting_answer (used offices self.now) lane }
    {
        check_lane(offices, lane)?;
        self.lanes.waiting_count(lane)
    }
}
