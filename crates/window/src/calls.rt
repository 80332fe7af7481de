// What can be asked of a window: opening, a lot, and the questions about its books.
ghost use Rattle.std.specs.Prelude.{◌≡◌, ℕ, ◌-◌, not, List, [], ◌∷◌, ◌++◌, Err, Decides, slice_index};
ghost use Rattle.fault.specs.declared.Fault.{Fault as FaultOf};
ghost use Rattle.fault.specs.declared.Layer.TheVariants.{Window as InWindow};
ghost use Rattle.post.specs.Lanes.{Unused};
ghost use Rattle.post.specs.Outs.{out};
ghost use Rattle.rules.specs.Runs.{Answer};
ghost use Rattle.window.specs.Opening.{opened};
ghost use Rattle.window.specs.Parts.{office as office_at};
ghost use Rattle.window.specs.Turns.{Accepts, admitted};
ghost use Rattle.window.specs.Windows.{setting_for, setting_of, state_of, books_of, Reached, LawfulBooks, NothingWaits, Kept, index_of, asked};

use crate::Window;
use crate::books::OfficeRecord;
use crate::opening::{open_books, read_setting};
use crate::place::Place;
use fault::{Fault, Layer, Refusal};
use ladder::Ladder;
use post::{MessageCount, Post, is_unused, message_count};

impl<P: Post> Window<P> {
    // Opens a window. On a post that was used before, every lot will be refused.
    pub fn open<L: Ladder + Drop>(post: P, ladder: L) -> Window<P>
        ensures post { result.post ≡ post }
        ensures setting { setting_of result ≡ setting_for (P.Post.offices post) (L.Ladder.steps ladder) (L.Ladder.slack ladder) }
        ensures books { result.checked.books ≡ opened result.checked.books.setting }
        ensures unused { Decides (not result.used) (Unused (P.Post.lanes post)) }
        ensures reached { Unused (P.Post.lanes post) → Reached P.Post.lanes [] [] result }
        ensures lawful { Unused (P.Post.lanes post) → LawfulBooks (setting_of result) [] [] (books_of P.Post.lanes result) }
    {
        let used = !is_unused(&post);
        let checked = open_books(read_setting(&post, &ladder));
        Window {
            post,
            checked,
            used,
        }
    }

    // The place of an office in the table.
    fn place_of(&self, office: u32) -> Result<Place, Fault>
        ensures { index_of result ≡ asked office self.now.checked.books (office - 1) }
    {
        if !(1..=self.checked.books.setting.offices).contains(&office) {
            return Err(Layer::Window.fault(Refusal::NoSuchOfficeOrLane, office as usize));
        }
        Ok(Place { index: office - 1 })
    }

    // Whether a lot at the office is admitted, and the office's place in the table.
    fn admit(&self, office: u32) -> Result<Place, Fault>
        ensures { index_of result ≡ admitted self.now.used office self.now.checked.books }
    {
        if self.used {
            return Err(Layer::Window.fault(Refusal::PostUsed, 0));
        }
        let place = self.place_of(office)?;
        if self.checked.books.coordinator.phase.is_closed() {
            return Err(Layer::Window.fault(Refusal::WindowClosed, office as usize));
        }
        Ok(place)
    }

    // Counts a lot at a place of the table, and sends what follows from it.
    fn accept(&mut self, place: Place) -> Result<(), Fault>
        ensures kept { Kept P.Post.became self.old self.new }
        ensures did { Accepts place.index (state_of P.Post.lanes self.old) (out (state_of P.Post.lanes self.new) result) }
    {
        if self.checked.count(place) {
            return self.signal_and_settle(place);
        }
        Ok(())
    }

    // A lot at an office, and all the messages that follow from it.
    pub fn lot(&mut self, office: u32) -> Result<(), Fault>
        ensures became { P.Post.became self.old.post self.new.post }
        ensures setting { self.new.checked.books.setting ≡ self.old.checked.books.setting }
        ensures used { self.new.used ≡ self.old.used }
        ensures offices { P.Post.offices self.new.post ≡ P.Post.offices self.old.post }
        ensures refused { (f : FaultOf) → admitted self.old.used office self.old.checked.books ≡ Err f → (result ≡ Err f) × (self.new ≡ self.old) }
        ensures ours { (f : FaultOf) → result ≡ Err f → f.layer ≡ InWindow → admitted self.old.used office self.old.checked.books ≡ Err f }
        ensures reached { (lots : List ℕ) (answers : List Answer) → Reached P.Post.lanes lots answers self.old → Reached P.Post.lanes (lots ++ office ∷ []) (answers ++ result ∷ []) self.new }
        ensures same { (lots : List ℕ) (answers : List Answer) (f : FaultOf) → Reached P.Post.lanes lots answers self.old → result ≡ Err f → self.new ≡ self.old }
        ensures lawful { (lots : List ℕ) (answers : List Answer) → Reached P.Post.lanes lots answers self.old → LawfulBooks (setting_of self.new) (lots ++ office ∷ []) (answers ++ result ∷ []) (books_of P.Post.lanes self.new) }
        ensures empty { (lots : List ℕ) (answers : List Answer) → Reached P.Post.lanes lots answers self.old → NothingWaits (P.Post.lanes self.new.post) }
    {
        let place = self.admit(office)?;
        self.accept(place)
    }

    pub fn office_count(&self) -> u32
        ensures { result ≡ (setting_of self.now).offices }
    {
        self.checked.books.setting.offices
    }

    pub fn step(&self) -> u32
        ensures { result ≡ (books_of P.Post.lanes self.now).step }
    {
        self.checked.books.coordinator.phase.step()
    }

    pub fn signals(&self) -> u32
        ensures { result ≡ (books_of P.Post.lanes self.now).signals }
    {
        self.checked.books.coordinator.signals
    }

    pub fn is_closed(&self) -> bool
        ensures { not result ≡ (books_of P.Post.lanes self.now).is_open }
    {
        self.checked.books.coordinator.phase.is_closed()
    }

    // How many messages the post has carried.
    pub fn messages(&self) -> MessageCount
        ensures { result.number ≡ (books_of P.Post.lanes self.now).messages }
    {
        message_count(&self.post)
    }

    // The record of an office.
    fn record_of(&self, office: u32) -> Result<OfficeRecord, Fault>
        ensures { result ≡ asked office self.now.checked.books (office_at self.now.checked.books (office - 1)) }
    {
        let place = self.place_of(office)?;
        Ok(self.checked.record(place))
    }

    pub fn credit(&self, office: u32) -> Result<u32, Fault>
        ensures { result ≡ asked office self.now.checked.books (slice_index (books_of P.Post.lanes self.now).credits (office - 1)) }
    {
        Ok(self.record_of(office)?.credit)
    }

    pub fn remainder(&self, office: u32) -> Result<u32, Fault>
        ensures { result ≡ asked office self.now.checked.books (slice_index (books_of P.Post.lanes self.now).remainders (office - 1)) }
    {
        Ok(self.record_of(office)?.remainder)
    }

    pub fn post(&self) -> &P
        ensures { result.now ≡ self.now.post }
    {
        &self.post
    }
}
