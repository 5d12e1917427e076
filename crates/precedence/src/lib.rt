// Which reactions of a network precede which, and their levels.
#![tactic(auto)]

mod direct;
mod error;
mod index;
mod precedence;
mod predecessors;

pub use error::PrecedenceError;
pub use index::Index;
pub use precedence::Precedence;
