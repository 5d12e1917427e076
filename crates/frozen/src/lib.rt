// Frozen networks: what an assembly declared, for good.
#![tactic(auto)]

mod freezing;
mod frozen;

pub use freezing::freeze;
pub use frozen::Network;
