// A number of offices that a post or a wire may have, and a table with an item for each of their lanes.
#![tactic(auto)]

ghost use Rattle.std.specs.Prelude.{◌≡◌, ◌≤◌, IfOk};
ghost use Rattle.std.specs.Result.{result_err};
ghost use Rattle.offices.specs.OfficeCounts.{office_count_fault};

mod lane_items;

use fault::{Fault, Layer, Refusal};
pub use lane_items::LaneItems;

#[derive(Clone, Copy)]
pub struct OfficeCount {
    number: u32,
    ghost some: { 1 ≤ number },
    ghost few: { number ≤ 64 },
}

impl OfficeCount {
    // The most offices that there are.
    pub const MOST: u32 = 64;

    // Refuses, in the name of the layer, a number out of its range.
    pub fn new(layer: Layer, number: u32) -> Result<OfficeCount, Fault>
        ensures fault { result_err result ≡ office_count_fault layer number }
        ensures count { IfOk result (λ c. c.number ≡ number) }
    {
        if !(1..=OfficeCount::MOST).contains(&number) {
            return Err(layer.fault(Refusal::OutOfRange, number as usize));
        }
        Ok(OfficeCount { number })
    }

    pub fn number(self) -> u32
        ensures { result ≡ self.number }
    {
        self.number
    }
}
