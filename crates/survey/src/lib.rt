// What a network declares in all, and the levels of its reactions, or a circle.
#![tactic(auto)]

mod show;
mod survey;

pub use survey::{Order, Survey, Totals};
