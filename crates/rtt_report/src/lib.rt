// The report of a replay of measurements through an estimator.
#![tactic(auto)]

pub mod report;
pub mod session;
mod text;
