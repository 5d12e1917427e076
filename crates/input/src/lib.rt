// A program's input, cut into lines.
#![tactic(auto)]

mod split;

pub use split::{Lines, first_line};
