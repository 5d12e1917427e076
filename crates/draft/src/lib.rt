// What a file has declared so far, and what its next line says.
#![tactic(auto)]

mod draft;
mod file;

pub use draft::Draft;
pub use file::assembled;
