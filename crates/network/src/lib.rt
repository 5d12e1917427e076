// Networks: what lines declare.
#![tactic(auto)]

mod add;
mod assembly;
mod checks;
mod declared;
mod keys;
mod lookup;
mod parts;
mod tables;

pub use assembly::Assembly;
pub use parts::{Action, Connection, Reaction, Target, TargetKind, Timer, Trigger};
pub use tables::Tables;
