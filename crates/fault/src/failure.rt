// Why a call that needs memory did not do its work: a fault, or want of memory.
ghost use Rattle.std.specs.Prelude.{◌≡◌};
ghost use Rattle.fault.specs.declared.failure.Failure.TheVariants.{Faulty, NoMemory};

use crate::Fault;
use std::alloc::{AllocError, AllocFailed};

#[derive(Debug, Drop)]
pub enum Failure {
    Faulty(Fault),
    NoMemory,
}

impl From<Fault> for Failure {
    ghost from_gives = { λ f r. r ≡ Faulty f };

    fn from(fault: Fault) -> Failure {
        Failure::Faulty(fault)
    }
}

impl From<AllocError> for Failure {
    ghost from_gives = { λ _ r. r ≡ NoMemory };

    fn from(_error: AllocError) -> Failure {
        Failure::NoMemory
    }
}

impl<T: Drop> From<AllocFailed<T>> for Failure {
    ghost from_gives = { λ _ r. r ≡ NoMemory };

    fn from(_refused: AllocFailed<T>) -> Failure {
        Failure::NoMemory
    }
}
