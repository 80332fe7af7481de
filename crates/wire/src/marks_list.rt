// The marks of a wire, read one after another.
ghost use Rattle.std.specs.Prelude.{◌≡◌, ◌≤◌, map};
ghost use Rattle.wire.specs.Wires.{costs};
ghost use Rattle.wire.specs.Marks.{outcome_of};

use marks::Mark;
use std::collections::VecDeque;

mod reading;

// The marks to read, and how many losses and doublings there are among them.
#[derive(Drop)]
pub struct Marks {
    list: VecDeque<Mark>,
    troubles: u32,
    ghost counted: { troubles ≡ costs (map outcome_of list.items) },
    ghost few: { troubles ≤ 65535 },
}
