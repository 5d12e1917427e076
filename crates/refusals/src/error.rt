// Why something is not built: a refusal, or want of memory.
ghost use Rattle.std.specs.Prelude.{◌≡◌};
ghost use Rattle.std.specs.declared.alloc.AllocError.{AllocError as Memory};
ghost use Rattle.refusals.specs.declared.error.BuildError.TheVariants.{Refused, NoMemory};

use crate::refusal::Refusal;
use std::alloc::{AllocError, AllocFailed};
use thiserror::Error;

#[derive(Clone, Copy, Debug, PartialEq, Eq, Error)]
pub enum BuildError {
    #[error("{0}")]
    Refused(Refusal),
    #[error("{0}")]
    NoMemory(AllocError),
}

impl From<Refusal> for BuildError {
    ghost from_gives = { λ e r. r ≡ Refused e };

    fn from(refusal: Refusal) -> BuildError {
        BuildError::Refused(refusal)
    }
}

impl From<AllocError> for BuildError {
    ghost from_gives = { λ e r. r ≡ NoMemory e };

    fn from(error: AllocError) -> BuildError {
        BuildError::NoMemory(error)
    }
}

// What could not be stored is dropped.
impl<T: Drop> From<AllocFailed<T>> for BuildError {
    ghost from_gives = { λ _ r. (e : Memory) × (r ≡ NoMemory e) };

    fn from(failed: AllocFailed<T>) -> BuildError {
        BuildError::NoMemory(AllocError::from(failed))
    }
}
