// Both texts, their lengths first.
ghost use Rattle.std.specs.Prelude.{◌≡◌};
ghost use Rattle.reader.specs.Answers.{Gives};
ghost use Rattle.texts.specs.Both.{short as short_text, read_both, both_model, ReadsExactly};

use day::{Day, read_day};
use fault::{Failure, Fault, Layer, Refusal};
use std::alloc::Global;
use terms::{Terms, read_terms};

// The most bytes that a text may have.
pub const MOST_BYTES: usize = 65535;

// The text of the terms and the text of the day.
#[derive(Clone, Copy)]
pub struct Texts<'t, 'd> {
    pub terms: &'t [u8],
    pub day: &'d [u8],
}

fn short(layer: Layer, text: &[u8]) -> Result<(), Fault>
    ensures { result ≡ short_text layer text.now }
{
    if text.len() > MOST_BYTES {
        return Err(layer.fault(Refusal::TextTooLong, MOST_BYTES));
    }
    Ok(())
}

impl<'t, 'd> Texts<'t, 'd> {
    // What the two texts say, or their first fault: both lengths are looked at first, then the terms and the day are read.
    #[tactic(auto, using(crate::proofs::ExactBoth::exactly))]
    pub fn read(self, heap: Global) -> Result<(Terms, Day<'d>), Failure>
        ensures value { Gives both_model (read_both self.entry.terms.now self.entry.day.now) result }
        ensures exact { ReadsExactly self.entry.terms.now self.entry.day.now result }
    {
        short(Layer::Terms, self.terms)?;
        short(Layer::Day, self.day)?;
        let agreed = read_terms(heap, self.terms)?;
        let played = read_day(heap, self.day, agreed.offices)?;
        Ok((agreed, played))
    }
}
