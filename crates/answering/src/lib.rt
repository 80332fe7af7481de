// What the program prints of two texts: the report of the day that they say, or their first fault.
#![tactic(auto)]

mod answers;
mod figures;
mod reports;
mod streams;

pub use answers::answer;
pub use reports::day_report;
pub use streams::{print_answer, read_start};
