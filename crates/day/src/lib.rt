// A day: the marks of its wire and the lots in their order, and how its text is read.
#![tactic(auto)]

mod day_text;
mod model;

pub use day_text::read_day;
pub use model::Day;
