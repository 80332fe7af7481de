// A wire: lanes on which frames of 16 bits wait. One kind has no troubles; on the other they are marked beforehand.
#![tactic(auto)]

ghost use Rattle.std.specs.Prelude.{◌≡◌, ℕ, List, [], ◌++◌};
ghost use Rattle.fault.specs.Refused.{UnchangedIfErr};
ghost use Rattle.wire.specs.Wires.{WireLane, Outcome, WireLaw, PutDone, TakeDone};

mod checks;
mod mark_source;
mod marks_list;
mod outcomes;
mod rows;
mod table_wire;
#[cfg(test)]
mod tests;

use fault::Fault;
pub use mark_source::{MarkSource, NoMarks};
pub use marks_list::Marks;
pub use table_wire::{CleanWire, MarkedWire, TableWire};

// Two lanes for each office. A frame that is put may be lost or joined twice, as often as the wire has troubles left.
pub trait Wire {
    ghost offices: { Self → ℕ };

    ghost lanes: { Self → List WireLane };

    ghost troubles: { Self → ℕ };

    // A wire may come to be another by puts with these outcomes, in order.
    ghost ran: { Self → Self → List Outcome → Type 0 };

    fn office_count(&self) -> u32
        ensures { result ≡ offices self.now };

    fn troubles_left(&self) -> u32
        ensures { result ≡ troubles self.now };

    // Puts a frame on a lane, or refuses it and changes nothing.
    fn put(&mut self, lane: u32, frame: u16) -> Result<(), Fault>
        ensures offices { offices self.new ≡ offices self.old }
        ensures puts { PutDone (lanes self.old) (troubles self.old) lane frame result (lanes self.new) (troubles self.new) (ran self.old self.new) }
        ensures refused { UnchangedIfErr result self.old self.new };

    // Takes the first frame from a lane, if one waits there.
    fn take(&mut self, lane: u32) -> Result<Option<u16>, Fault>
        ensures offices { offices self.new ≡ offices self.old }
        ensures troubles { troubles self.new ≡ troubles self.old }
        ensures rests { ran self.old self.new [] }
        ensures takes { TakeDone (lanes self.old) lane result (lanes self.new) }
        ensures refused { UnchangedIfErr result self.old self.new };

    ghost rests: { (w : Self) → ran w w [] };

    ghost goes: { (w v u : Self) (xs ys : List Outcome) → ran w v xs → ran v u ys → ran w u (xs ++ ys) };

    ghost sound: { (w : Self) → WireLaw (offices w) (lanes w) (troubles w) };
}
