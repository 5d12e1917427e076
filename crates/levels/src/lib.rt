// Levels of a graph: the longest chain to each node, or a circle.
#![tactic(auto)]

mod chains;
mod error;
mod graph;
mod level;
mod order;

pub use error::LevelsError;
pub use level::{Levelled, levels};
