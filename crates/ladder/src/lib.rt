// A ladder: steps that lead from a coarse slack down to the grain, and two kinds of it.
#![tactic(auto)]

ghost use Rattle.std.specs.Prelude.{◌≡◌, ℕ};
ghost use Rattle.ladder.specs.Laws.{LadderLaw, slack_answer};

mod halving_ladder;
mod listed_ladder;
mod ranges;
mod same;
#[cfg(test)]
mod tests;

use fault::Fault;
pub use halving_ladder::Halving;
pub use listed_ladder::Listed;
pub use ranges::{LARGEST_GRAIN, MOST_STEPS, divisor_fits, halving_fits};
pub use same::same_ladder;

// Slack 0 is the top, and the slack of the last step is the grain.
pub trait Ladder {
    ghost steps: { Self → ℕ };

    ghost slack: { Self → ℕ → ℕ };

    fn step_count(&self) -> u32
        ensures { result ≡ steps self.now };

    // The slack of any step from 0 to the last, and a fault past it.
    fn slack_of(&self, step: u32) -> Result<u32, Fault>
        ensures { result ≡ slack_answer (steps self.now) (slack self.now) step };

    ghost sound: { (l : Self) → LadderLaw (steps l) (slack l) };
}
