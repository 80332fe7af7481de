// The ladder whose divisors are listed, the first for step 1.
ghost use Rattle.std.specs.Prelude.{◌≡◌, ℕ, ◌*◌, ◌<◌, ◌≤◌, length, take, IfOk, None, slice_index};
ghost use Rattle.std.specs.Result.{result_err};
ghost use Rattle.ladder.specs.Makers.{divisors_fault, listed_fault};
ghost use Rattle.ladder.specs.Slacks.{product, listed_slack};
ghost use Rattle.ladder.specs.Products.{listed_law};

use crate::Ladder;
use crate::ranges::{MOST_STEPS, check_grain, check_step, divisor_fits, is_step_count};
use fault::{Fault, Layer, Refusal};

// The first `steps` places of the table are in use.
// Kept: a fixed table with its count, since making a ladder may not want memory and a ladder is copied.
// Kept: a plain grain and number of steps with their bounds, since the definitions of both ladders name the plain numbers and a struct would stand between.
#[derive(Clone, Copy, Debug)]
pub struct Listed {
    grain: u32,
    steps: u32,
    table: [u32; MOST_STEPS],
    ghost some: { 1 ≤ steps },
    ghost few: { steps ≤ 16 },
    ghost least: { 1 ≤ grain },
    ghost top: { grain * product (take steps table) ≤ 16777216 },
    ghost low: { (i : ℕ) → i < steps → 2 ≤ slice_index (take steps table) i },
    ghost high: { (i : ℕ) → i < steps → slice_index (take steps table) i ≤ 16 },
}

// Tests each divisor in turn, and that the top stays in its range with it.
fn check_divisors(grain: u32, divisors: &[u32]) -> Result<(), Fault>
    requires { grain ≤ 16777216 }
    ensures { result_err result ≡ divisors_fault grain divisors.now }
{
    let mut top = grain;
    for divisor in divisors {
        let divisor = *divisor;
        if !divisor_fits(top, divisor) {
            return Err(Layer::Ladder.fault(Refusal::OutOfRange, divisor as usize));
        }
        top *= divisor;
    }
    Ok(())
}

// The grain times all the divisors.
// Kept: a `for` over the divisors; tried as `product`, what it asks of each prefix stayed open.
fn product_from(grain: u32, divisors: &[u32]) -> u32
    requires divisors_bound { grain * product divisors.now ≤ 16777216 }
    requires by_index { (i : ℕ) → i < length divisors.now → 1 ≤ slice_index divisors.now i }
    ensures { result ≡ grain * product divisors.now }
{
    let mut slack = grain;
    for divisor in divisors {
        slack *= *divisor;
    }
    slack
}

impl Listed {
    // Refuses a grain, a number of steps, a divisor or a top out of its range.
    pub fn new(grain: u32, divisors: &[u32]) -> Result<Listed, Fault>
        ensures fault { result_err result ≡ listed_fault grain divisors.now }
        ensures ladder { IfOk result (λ l. (l.grain ≡ grain) × (l.steps ≡ length divisors.now) × (take l.steps l.table ≡ divisors.now)) }
    {
        check_grain(grain)?;
        if !is_step_count(divisors.len()) {
            return Err(Layer::Ladder.fault(Refusal::OutOfRange, divisors.len()));
        }
        check_divisors(grain, divisors)?;
        Ok(Listed::of_checked(grain, divisors))
    }

    // The ladder of numbers that passed the tests.
    fn of_checked(grain: u32, divisors: &[u32]) -> Listed
        requires { listed_fault grain divisors.now ≡ None }
        ensures { (result.grain ≡ grain) × (result.steps ≡ length divisors.now) × (take result.steps result.table ≡ divisors.now) }
    {
        let mut table = [0; MOST_STEPS];
        table[0..divisors.len()].copy_from_slice(divisors);
        Listed {
            grain,
            steps: divisors.len() as u32,
            table,
        }
    }
}

impl Ladder for Listed {
    ghost steps = { λ l. l.steps };

    ghost slack = { λ l. listed_slack l.grain (take l.steps l.table) };

    ghost sound = { λ l. listed_law l.grain l.steps l.table l.top l.low l.some l.few l.least l.high };

    fn step_count(&self) -> u32 {
        self.steps
    }

    fn slack_of(&self, step: u32) -> Result<u32, Fault> {
        check_step(self.steps, step)?;
        Ok(product_from(self.grain, &self.table[step as usize..self.steps as usize]))
    }
}
