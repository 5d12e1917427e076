// Why a graph has no levels.
ghost use Rattle.std.specs.Prelude.{◌≡◌};

use std::alloc::AllocError;
use thiserror::Error;

#[derive(Debug, PartialEq, Eq, Drop, Error)]
pub enum LevelsError {
    #[error("an edge from what is no node")]
    NoNode,
    // nodes of which each directly precedes the next, from one back to itself
    #[error("a circle")]
    Circle(Vec<usize>),
    #[error("{0}")]
    NoMemory(AllocError),
}

impl From<AllocError> for LevelsError {
    ghost use Rattle.levels.specs.declared.error.LevelsError.TheVariants.{NoMemory};

    ghost from_gives = { λ e result. result ≡ NoMemory e };

    fn from(error: AllocError) -> LevelsError {
        LevelsError::NoMemory(error)
    }
}
