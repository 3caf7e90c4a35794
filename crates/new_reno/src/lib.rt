// The NewReno congestion controller.
#![tactic(auto)]

pub mod config;
pub mod figures;
pub mod new_reno;
