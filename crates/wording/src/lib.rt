// The words for what one line declares, or why it is refused.
#![tactic(auto)]

mod body;
mod network;
mod run;
mod said;
mod step;

pub use said::Said;
