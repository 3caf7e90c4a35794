// The BBR congestion controller.
#![tactic(auto)]

pub mod bbr;
pub mod config;
pub mod figures;
