// How many messages a post has carried.
ghost use Rattle.std.specs.Prelude.{◌≡◌};
ghost use Rattle.post.specs.Lanes.{lane as lane_of, all_sent};

use crate::Post;

// A number of messages.
// Kept: a type beside the number of frames, of another width, since clauses name the field of each and a marker type would add a parameter to both.
#[derive(Clone, Copy, Debug, PartialEq, Eq)]
pub struct MessageCount {
    number: u32,
}

impl MessageCount {
    pub fn new(number: u32) -> MessageCount
        ensures value { result.number ≡ number }
    {
        MessageCount { number }
    }

    pub fn number(self) -> u32
        ensures { result ≡ self.number }
    {
        self.number
    }
}

// How many bytes were sent on a lane, and 0 where there is no such lane.
pub fn sent_on<P: Post>(post: &P, lane: u32) -> u32
    ensures { result ≡ (lane_of (P.lanes post.now) lane).sent }
{
    post.sent_count(lane).unwrap_or(0)
}

// The sum of the sent numbers of all lanes.
// Kept: a `for` over the lanes; tried as `map` and `sum`, whose bound stayed open.
pub fn message_count<P: Post>(post: &P) -> MessageCount
    ensures { result.number ≡ all_sent (P.lanes post.now) }
{
    let mut number = 0;
    for lane in 0..2 * post.office_count() {
        number += sent_on(post, lane);
    }
    MessageCount { number }
}
