// A day of lots played through a window, over any post; over the alternating bit with what the wire did.
#![tactic(auto)]

mod day;
mod over_wire;
mod tally;

pub use day::{Played, play};
pub use over_wire::{frames_of, play_over_wire};
pub use tally::Tally;
