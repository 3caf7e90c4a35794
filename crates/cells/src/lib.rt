// A path's bookkeeping, with no controller: 256 cells for the numbers that are out, and what they add up to.
#![tactic(auto)]

pub mod table;
pub mod tracker;
