// The ladder whose slacks halve from step to step.
ghost use Rattle.std.specs.Prelude.{◌≡◌, ◌*◌, ◌^◌, ◌≤◌, IfOk};
ghost use Rattle.std.specs.Result.{result_err};
ghost use Rattle.ladder.specs.Makers.{halving_fault};
ghost use Rattle.ladder.specs.Slacks.{halving_slack};
ghost use Rattle.ladder.specs.Halves.{halving_law};

use crate::Ladder;
use crate::ranges::{check_grain, check_step, halving_fits};
use fault::{Fault, Layer, Refusal};

// Kept: a plain grain and number of steps with their bounds, since the definitions of both ladders name the plain numbers and a struct would stand between.
#[derive(Clone, Copy, Debug)]
pub struct Halving {
    grain: u32,
    steps: u32,
    ghost some: { 1 ≤ steps },
    ghost few: { steps ≤ 16 },
    ghost least: { 1 ≤ grain },
    ghost top: { grain * 2 ^ steps ≤ 16777216 },
}

impl Halving {
    // Refuses a grain, a number of steps or a top out of its range.
    pub fn new(grain: u32, steps: u32) -> Result<Halving, Fault>
        ensures fault { result_err result ≡ halving_fault grain steps }
        ensures ladder { IfOk result (λ l. (l.grain ≡ grain) × (l.steps ≡ steps)) }
    {
        check_grain(grain)?;
        if !halving_fits(grain, steps) {
            return Err(Layer::Ladder.fault(Refusal::OutOfRange, steps as usize));
        }
        Ok(Halving { grain, steps })
    }
}

impl Ladder for Halving {
    ghost steps = { λ l. l.steps };

    ghost slack = { λ l. halving_slack l.grain l.steps };

    ghost sound = { λ l. halving_law l.grain l.steps l.some l.few l.least l.top };

    fn step_count(&self) -> u32 {
        self.steps
    }

    fn slack_of(&self, step: u32) -> Result<u32, Fault> {
        check_step(self.steps, step)?;
        Ok(self.grain << (self.steps - step))
    }
}
