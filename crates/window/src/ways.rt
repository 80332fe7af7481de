// The two ways of the lanes: which lane an office has on each, and what is done with a byte that comes by it.
ghost use Rattle.std.specs.Prelude.{◌≡◌, ℕ, ◌+◌, ◌*◌};
ghost use Rattle.post.specs.Outs.{Out, out};
ghost use Rattle.window.specs.Turns.{State, Holds, hear, follow};
ghost use Rattle.window.specs.Keeps.{hear_holds, follow_holds};
ghost use Rattle.window.specs.Windows.{state_of, Kept};

use crate::Window;
use crate::message::Message;
use crate::place::Place;
use fault::Fault;
use post::Post;

// What is done with a byte leaves the lane that it came by as it is.
pub trait Way {
    ghost lane: { ℕ → ℕ };

    ghost arrived: { ℕ → ℕ → State → Out State (Unit {0}) };

    // The lane of the office at the place.
    fn lane(place: Place) -> u32
        ensures { result ≡ lane place.index };

    // A byte was taken from that lane.
    fn arrive<P: Post>(window: &mut Window<P>, place: Place, byte: u8) -> Result<(), Fault>
        ensures kept { Kept P.Post.became window.old window.new }
        ensures did { out (state_of P.Post.lanes window.new) result ≡ arrived place.index byte (state_of P.Post.lanes window.old) };

    ghost holds: { (i byte : ℕ) (s : State) → Holds (lane i) s.lanes (arrived i byte s).state.lanes };
}

// Up to the coordinator, who hears the byte and may tell all offices another.
pub struct Up;

impl Way for Up {
    ghost lane = { λ i. 2 * i };

    ghost arrived = { hear };

    ghost holds = { hear_holds };

    fn lane(place: Place) -> u32 {
        place.lane_up()
    }

    fn arrive<P: Post>(window: &mut Window<P>, place: Place, byte: u8) -> Result<(), Fault> {
        match window.checked.hear(place, Message::try_from(byte).ok()) {
            Some(reply) => window.tell(reply.to_byte()),
            None => Ok(()),
        }
    }
}

// Down to the office, which follows the byte and may send signals.
pub struct Down;

impl Way for Down {
    ghost lane = { λ i. 2 * i + 1 };

    ghost arrived = { follow };

    ghost holds = { follow_holds };

    fn lane(place: Place) -> u32 {
        place.lane_down()
    }

    fn arrive<P: Post>(window: &mut Window<P>, place: Place, byte: u8) -> Result<(), Fault> {
        let count = window.checked.follow(place, Message::try_from(byte).ok());
        window.signal(place, count)
    }
}
