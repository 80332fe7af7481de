// A table with room for the lanes of every post: both ways of each of 64 offices.
ghost use Rattle.std.specs.Prelude.{◌≡◌};

use crate::office_lanes::OfficeLanes;

mod carrying;

#[derive(Drop)]
pub struct LaneTable {
    lanes: OfficeLanes,
    ghost all: { lanes.slots.offices.number ≡ 64 },
}
