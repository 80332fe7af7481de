// What follows a signal: turns, until no lane holds anything.
ghost use Rattle.std.specs.Prelude.{◌≡◌, ◌<◌, true, false, [], length};
ghost use Rattle.post.specs.Lanes.{lane as lane_of};
ghost use Rattle.post.specs.Outs.{out};
ghost use Rattle.window.specs.Turns.{Busy, Calm, Settled, Signals};
ghost use Rattle.window.specs.Windows.{state_of, Kept};

use crate::Window;
use crate::place::Place;
use fault::Fault;
use post::Post;

// Whether anything waits on a lane.
fn holds_any<P: Post>(post: &P, lane: u32) -> bool
    ensures yes { result ≡ true → 0 < length (lane_of (P.Post.lanes post.now) lane).waiting }
    ensures no { result ≡ false → (lane_of (P.Post.lanes post.now) lane).waiting ≡ [] }
{
    post.waiting_count(lane).is_ok_and(|count| count > 0)
}

impl<P: Post> Window<P> {
    // Whether anything waits on a lane of one of the offices.
    fn is_busy(&self) -> bool
        ensures yes { result ≡ true → Busy (state_of P.Post.lanes self.now) }
        ensures no { result ≡ false → Calm (state_of P.Post.lanes self.now) }
    {
        (0..2 * self.checked.books.setting.offices).any(|lane| holds_any(&self.post, lane))
    }

    fn settle(&mut self) -> Result<(), Fault>
        ensures kept { Kept P.Post.became self.old self.new }
        ensures did { Settled (state_of P.Post.lanes self.old) (out (state_of P.Post.lanes self.new) result) }
    {
        while self.is_busy() {
            self.turn()?;
        }
        Ok(())
    }

    // The office at the place sends a signal of its step, and turns follow.
    pub(crate) fn signal_and_settle(&mut self, place: Place) -> Result<(), Fault>
        ensures kept { Kept P.Post.became self.old self.new }
        ensures did { Signals place.index (state_of P.Post.lanes self.old) (out (state_of P.Post.lanes self.new) result) }
    {
        self.signal(place, 1)?;
        self.settle()
    }
}
