// Why the reactions of a network have no levels.
ghost use Rattle.std.specs.Prelude.{◌≡◌};
ghost use Rattle.precedence.specs.Errors.{Why};

use refusals::{BuildError, Refusal};
use std::alloc::AllocError;
use thiserror::Error;

#[derive(Debug, PartialEq, Eq, Drop, Error)]
pub enum PrecedenceError {
    // reactions of which each directly precedes the next, from one back to itself
    #[error("some reaction precedes itself")]
    Circle(Vec<usize>),
    #[error("{0}")]
    NoMemory(AllocError),
}

impl From<AllocError> for PrecedenceError {
    ghost use Rattle.precedence.specs.declared.error.PrecedenceError.TheVariants.{NoMemory};

    ghost from_gives = { λ e result. result ≡ NoMemory e };

    fn from(error: AllocError) -> PrecedenceError {
        PrecedenceError::NoMemory(error)
    }
}

impl From<PrecedenceError> for BuildError {
    ghost from_gives = { Why };

    fn from(error: PrecedenceError) -> BuildError {
        match error {
            PrecedenceError::Circle(_) => BuildError::Refused(Refusal::Circle),
            PrecedenceError::NoMemory(why) => BuildError::NoMemory(why),
        }
    }
}
