// Casts between whole numbers and floats, durations in seconds, cubes and cube roots: each answer
// exact, as its rule says.
#![tactic(auto)]

pub mod cast;
pub mod duration;
pub mod figures;
mod ieee;
pub mod root;

pub use cast::{nearest, whole_part};
pub use duration::seconds;
pub use root::{cube, cube_root};
