// A table of pairs of texts: its lines are decoded, and each pair is answered.
#![tactic(auto)]

mod decoding;
mod lines;
mod streams;
#[cfg(test)]
mod tests;

pub use decoding::decode;
pub use lines::answers;
pub use streams::{run, run_by_line};
