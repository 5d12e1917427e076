// Says in plain words what each line of a network file declares, or why it is refused.
#![tactic(auto)]

mod explanation;

pub use explanation::{Explanation, MOST_BYTES, say_lines};
