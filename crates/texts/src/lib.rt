// Both texts together: their lengths first, then the terms and the day.
#![tactic(auto)]

mod both_texts;

pub use both_texts::{MOST_BYTES, Texts};
