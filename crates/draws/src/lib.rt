// Sources of draws from 0 to 6, for the offset of BBR's gain cycle.
#![tactic(auto)]

pub mod recorded;
pub mod source;
pub mod xorshift;
