// The post that delivers each byte at once.
ghost use Rattle.std.specs.Prelude.{◌≡◌, ◌*◌, replicate, IfOk};
ghost use Rattle.std.specs.Result.{result_err};
ghost use Rattle.post.specs.Lanes.{no_lane};
ghost use Rattle.post.specs.Makers.{post_fault};
ghost use Rattle.post.specs.Tables.{lanes_of};
ghost use Rattle.post.specs.Shown.{table_sound};
ghost use Rattle.std.proofs.Common.{rules};

use crate::Post;
use crate::office_lanes::OfficeLanes;
use fault::{Fault, Layer};
use offices::OfficeCount;

#[derive(Drop)]
pub struct DirectPost {
    table: OfficeLanes,
}

impl DirectPost {
    // An unused post; refuses a number of offices out of its range.
    pub fn new(offices: u32) -> Result<DirectPost, Fault>
        ensures fault { result_err result ≡ post_fault offices }
        ensures post { IfOk result (λ p. (p.table.slots.offices.number ≡ offices) × (lanes_of p.table ≡ replicate (2 * offices) no_lane)) }
    {
        Ok(DirectPost {
            table: OfficeLanes::new(OfficeCount::new(Layer::Post, offices)?),
        })
    }
}

impl Post for DirectPost {
    ghost offices = { λ p. p.table.slots.offices.number };

    ghost lanes = { λ p. lanes_of p.table };

    ghost became = { λ _ _. Unit {0} };

    ghost sound = { λ p. table_sound p.table };

    ghost stays = { Prim.search rules };

    ghost joins = { Prim.search rules };

    fn office_count(&self) -> u32 {
        self.table.office_count()
    }

    fn sent_count(&self, lane: u32) -> Result<u32, Fault> {
        self.table.sent_count(lane)
    }

    fn waiting_count(&self, lane: u32) -> Result<u32, Fault> {
        self.table.waiting_count(lane)
    }

    fn send(&mut self, lane: u32, byte: u8) -> Result<(), Fault> {
        self.table.send(lane, byte)
    }

    fn take(&mut self, lane: u32) -> Result<Option<u8>, Fault> {
        self.table.take(lane)
    }
}
