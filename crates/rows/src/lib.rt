// Rows of tables by their keys.
#![tactic(auto)]

mod groups;
mod keyed;

pub use groups::{group_at, grouped};
pub use keyed::Keyed;
