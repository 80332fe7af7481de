// The turns of a window over any post: the coordinator takes the lanes up, then the offices take the lanes down.
ghost use Rattle.std.specs.Prelude.{◌≡◌};
ghost use Rattle.post.specs.Outs.{out};
ghost use Rattle.window.specs.Parts.{office};
ghost use Rattle.window.specs.Turns.{with_lanes, tell as tell_lanes, drain, part, signal as signal_lanes, turn as turn_state};
ghost use Rattle.window.specs.Windows.{state_of, Kept};

use crate::Window;
use crate::message::Message;
use crate::place::Place;
use crate::ways::{Down, Up, Way};
use fault::Fault;
use post::Post;

impl<P: Post> Window<P> {
    // All offices are told a byte.
    pub(crate) fn tell(&mut self, byte: u8) -> Result<(), Fault>
        ensures kept { Kept P.became self.old self.new }
        ensures did { out (state_of P.lanes self.new) result ≡ with_lanes self.old.checked.books (tell_lanes self.old.checked.books.setting.offices byte (P.lanes self.old.post)) }
    {
        for index in 0..self.checked.books.setting.offices {
            let place = Place { index };
            self.post.send(place.lane_down(), byte)?;
        }
        Ok(())
    }

    // The office at the place sends so many signals of its step.
    pub(crate) fn signal(&mut self, place: Place, count: u32) -> Result<(), Fault>
        ensures kept { Kept P.became self.old self.new }
        ensures did { out (state_of P.lanes self.new) result ≡ with_lanes self.old.checked.books (signal_lanes place.index (office self.old.checked.books place.index).step count (P.lanes self.old.post)) }
    {
        let byte = Message::Signal(self.checked.record(place).step).to_byte();
        for _t in 0..count {
            self.post.send(place.lane_up(), byte)?;
        }
        Ok(())
    }

    // The office's lane of one way is taken until it is empty.
    fn drain<W: Way>(&mut self, place: Place) -> Result<(), Fault>
        ensures kept { Kept P.became self.old self.new }
        ensures did { out (state_of P.lanes self.new) result ≡ drain (W.lane place.index) (W.arrived place.index) (state_of P.lanes self.old) }
    {
        while let Some(byte) = self.post.take(W::lane(place))? {
            W::arrive(self, place, byte)?;
        }
        Ok(())
    }

    // All lanes of one way are taken, office by office.
    fn drain_all<W: Way>(&mut self) -> Result<(), Fault>
        ensures kept { Kept P.became self.old self.new }
        ensures did { out (state_of P.lanes self.new) result ≡ part W.lane W.arrived self.old.checked.books.setting.offices (state_of P.lanes self.old) }
    {
        for index in 0..self.checked.books.setting.offices {
            self.drain::<W>(Place { index })?;
        }
        Ok(())
    }

    pub(crate) fn turn(&mut self) -> Result<(), Fault>
        ensures kept { Kept P.became self.old self.new }
        ensures did { out (state_of P.lanes self.new) result ≡ turn_state (state_of P.lanes self.old) }
    {
        self.drain_all::<Up>()?;
        self.drain_all::<Down>()
    }
}
