// Tags: the points at which a network reacts, in their order, and a tag plus a delay.
#![tactic(auto)]

mod tag;

pub use tag::{HORIZON, Tag};

#[cfg(test)]
mod tests;
