// BBR's state as plain data, with its targets, its rates and its cycle of gains.
#![tactic(auto)]

pub mod cycle;
pub mod make;
pub mod rates;
pub mod state;
pub mod targets;
