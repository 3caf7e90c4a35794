// Measurements of round-trip times as text, a line each.
#![tactic(auto)]

pub mod faults;
pub mod line;
pub mod lines;
pub mod number;
pub mod parts;
