// What the tests compare of an answer: the number and the place of its refusal.
#![tactic(auto)]

ghost use Rattle.std.specs.Prelude.{◌≡◌, MatchResult};
ghost use Rattle.refusals.specs.Told.{told};
ghost use Rattle.fault.specs.declared.failure.Failure.{Failure as FailureOf};

use fault::Failure;

// Zeros where there is no refusal; 99 and 0 stand for want of memory.
// Kept: zeros and not an option, since the values that the tests expect have them.
pub fn refusal_of<T: Drop, E: Into<Failure>>(answer: Result<T, E>) -> (u32, usize)
    ensures { MatchResult answer (λ _. result ≡ (0, 0)) (λ e. (f : FailureOf) × E.converts e f × (result ≡ told f)) }
{
    match answer {
        Ok(_) => (0, 0),
        Err(error) => match error.into() {
            Failure::Faulty(fault) => (fault.refusal.number(), fault.place),
            Failure::NoMemory => (99, 0),
        },
    }
}
