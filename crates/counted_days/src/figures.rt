// What the tests compare: the figures of a window with the sent number of each lane, and what a refusal tells.
use fault::{Fault, Layer};
use post::Post;
use window::Window;

// The books of up to two offices and what the post's lanes have carried; 0 where there is no such office or lane.
#[derive(Clone, Copy, Debug, PartialEq, Eq)]
pub struct Figures {
    pub step: u32,
    pub signals: u32,
    pub closed: bool,
    pub messages: u32,
    pub sent: [u32; 4],
    pub credits: [u32; 2],
    pub remainders: [u32; 2],
}

// The sent numbers are asked of the post itself: books that were kept without it do not have them.
pub fn figures_of<P: Post>(window: &Window<P>) -> Figures {
    let post = window.post();
    Figures {
        step: window.step(),
        signals: window.signals(),
        closed: window.is_closed(),
        messages: window.messages().number(),
        sent: [0, 1, 2, 3].map(|lane| post.sent_count(lane).unwrap_or(0)),
        credits: [1, 2].map(|office| window.credit(office).unwrap_or(0)),
        remainders: [1, 2].map(|office| window.remainder(office).unwrap_or(0)),
    }
}

// The layer, the number and the place of a refusal, if the answer is one.
// Kept: beside the telling that all tests share, since it tells the layer too.
pub fn refusal_of<T: Drop>(answer: Result<T, Fault>) -> Option<(Layer, u32, usize)> {
    answer
        .err()
        .map(|fault| (fault.layer, fault.refusal.number(), fault.place))
}
