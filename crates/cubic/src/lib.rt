// The CUBIC congestion controller.
#![tactic(auto)]

pub mod config;
pub mod cubic;
pub mod figures;
