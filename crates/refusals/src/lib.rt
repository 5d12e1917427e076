// Why a call is refused, by number, for every layer.
#![tactic(auto)]

mod error;
mod refusal;

pub use error::BuildError;
pub use refusal::Refusal;
