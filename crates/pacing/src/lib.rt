// Pacing of transmissions.
#![tactic(auto)]

pub mod pacer;
