// A table with an item for each lane of a number of offices: two lanes for each.
ghost use Rattle.std.specs.Prelude.{◌≡◌, ◌*◌, ◌<◌, ◌≤◌, length, replicate, MatchOption, slice_index_or, slice_set};

use crate::OfficeCount;

// The most lanes that there are.
const MOST_LANES: usize = 128;

// The first items are those of the lanes.
// Kept: a fixed table, since what changes an item may not want memory.
#[derive(Drop)]
pub struct LaneItems<T> {
    offices: OfficeCount,
    items: [T; MOST_LANES],
    ghost wide: { length items ≡ 128 },
}

impl<T: Copy> LaneItems<T> {
    ghost use Rattle.offices.specs.LaneItems.{in_use};

    // The same item for each lane.
    pub fn new(offices: OfficeCount, item: T) -> LaneItems<T>
        ensures offices { result.offices ≡ offices }
        ensures items { in_use result ≡ replicate (2 * offices.number) item }
    {
        LaneItems {
            offices,
            items: [item; MOST_LANES],
        }
    }

    // How many offices the lanes are for.
    pub fn office_count(&self) -> u32
        ensures { result ≡ self.now.offices.number }
    {
        self.offices.number()
    }

    // The item of a lane, where there is such a lane.
    pub fn get(&self, lane: u32) -> Option<&T>
        ensures { MatchOption result (length (in_use self.now) ≤ lane) (λ x. (lane < length (in_use self.now)) × (x.now ≡ slice_index_or (in_use self.now) lane x.now)) }
    {
        self.in_use().get(lane as usize)
    }

    // Another item for a lane; where there is no such lane nothing changes.
    pub fn set(&mut self, lane: u32, item: T)
        ensures offices { self.new.offices ≡ self.old.offices }
        ensures items { in_use self.new ≡ slice_set (in_use self.old) lane item }
    {
        if lane < 2 * self.offices.number() {
            self.items[lane as usize] = item;
        }
    }

    // The items of all lanes.
    fn in_use(&self) -> &[T]
        ensures { result.now ≡ in_use self.now }
    {
        &self.items[..2 * self.offices.number() as usize]
    }
}
