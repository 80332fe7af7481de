// A table of the lanes of a number of offices.
use crate::slot::Slot;
use offices::LaneItems;

mod carrying;

#[derive(Drop)]
pub struct OfficeLanes {
    slots: LaneItems<Slot>,
}
