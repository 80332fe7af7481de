// The report of a day: its numbers, its text, and the text in a buffer that a caller lends.
#![tactic(auto)]

use bit_post::FrameCount;
use post::MessageCount;

mod text;
mod writing;

pub use text::report_text;
pub use writing::write_report;

// The numbers of a report; those of the offices stand in lists, from office 1 on.
#[derive(Drop)]
pub struct Report {
    // The number of the closing lot among the accepted ones; none while the window is open.
    pub closed: Option<usize>,
    pub step: u32,
    pub signals: u32,
    pub messages: MessageCount,
    pub frames: FrameCount,
    pub accepted: usize,
    pub late: usize,
    // Kept: two lists, since the report prints each of them as one line.
    pub credits: Vec<u32>,
    pub remainders: Vec<u32>,
}
