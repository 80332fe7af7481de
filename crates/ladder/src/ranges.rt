// The ranges of the numbers that a ladder is made of, and the tests of them.
ghost use Rattle.std.specs.Prelude.{◌≡◌, None};
ghost use Rattle.std.specs.Result.{result_err};
ghost use Rattle.ladder.specs.Laws.{step_fault};
ghost use Rattle.ladder.specs.Makers.{within, tested, halving_fits, divisor_fits};

use fault::{Fault, Layer, Refusal};

pub const MOST_STEPS: usize = 16;

pub const LARGEST_GRAIN: u32 = 8_388_608;

pub const LARGEST_TOP: u32 = 16_777_216;

pub const LARGEST_DIVISOR: u32 = 16;

// Whether a ladder may have so many steps.
pub fn is_step_count(steps: usize) -> bool
    ensures { result ≡ within 1 16 steps }
{
    (1..=MOST_STEPS).contains(&steps)
}

// Whether a halving ladder over `grain` may have so many steps: their number and the top are in range.
pub fn halving_fits(grain: u32, steps: u32) -> bool
    ensures { result ≡ halving_fits grain steps }
{
    is_step_count(steps as usize) && u64::from(grain) << steps <= u64::from(LARGEST_TOP)
}

// Whether a divisor may follow where the grain times those before it is `whole`: it and the top are in range.
pub fn divisor_fits(whole: u32, divisor: u32) -> bool
    ensures { result ≡ divisor_fits whole divisor }
{
    (2..=LARGEST_DIVISOR).contains(&divisor) && whole.saturating_mul(divisor) <= LARGEST_TOP
}

// Refuses a grain out of its range.
pub fn check_grain(grain: u32) -> Result<(), Fault>
    ensures { result_err result ≡ tested (within 1 8388608 grain) grain None }
{
    if !(1..=LARGEST_GRAIN).contains(&grain) {
        return Err(Layer::Ladder.fault(Refusal::OutOfRange, grain as usize));
    }
    Ok(())
}

// Refuses a step past the last of `steps`.
pub fn check_step(steps: u32, step: u32) -> Result<(), Fault>
    ensures { result_err result ≡ step_fault steps step }
{
    if step > steps {
        return Err(Layer::Ladder.fault(Refusal::NoSuchStep, step as usize));
    }
    Ok(())
}
