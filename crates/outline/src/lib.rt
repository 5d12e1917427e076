// What each line of a file declares where it stands: things are numbered as they come.
#![tactic(auto)]

mod counts;
mod declared;
mod progress;

pub use counts::Counts;
pub use declared::Declared;
pub use progress::Progress;
