// What is counted of a day beside the books: accepted lots, late lots, and the lot that closed the window.
ghost use Rattle.std.specs.Prelude.{◌≡◌, ◌^◌, ◌<◌};
ghost use Rattle.playing.specs.Tallies.{counted, noted};

use fault::{Fault, Refusal};

// The closing lot by its number among the accepted ones.
#[derive(Clone, Copy, Default)]
pub struct Tally {
    pub accepted: usize,
    pub late: usize,
    pub closing: Option<usize>,
}

impl Tally {
    // Notes what a lot was answered, and whether the window is closed after it.
    pub(crate) fn note(&mut self, answer: Result<(), Fault>, closed: bool)
        requires { counted self.old < 2 ^ 63 }
        ensures { self.new ≡ noted answer closed self.old }
    {
        match answer {
            Ok(()) => {
                self.accepted += 1;
                if closed {
                    self.closing = Some(self.accepted);
                }
            }
            Err(
                Fault {
                    refusal: Refusal::WindowClosed,
                    ..
                },
            ) => self.late += 1,
            Err(_) => {}
        }
    }
}
