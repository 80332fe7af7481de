// The terms of a window: how many offices there are, the grain, the ladder and the post, and how their text is read.
#![tactic(auto)]

mod model;
mod terms_text;

pub use model::{LadderChoice, PostChoice, Terms};
pub use terms_text::read_terms;
