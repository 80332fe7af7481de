// What is printed of two texts: what they say, or their first fault with the line that it lies in.
#![tactic(auto)]

mod answers;
mod lines;

pub use answers::{answer, fault_text, text_or_fault};
pub use lines::fault_line;
