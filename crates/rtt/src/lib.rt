// The round-trip time estimator of a path.
#![tactic(auto)]

pub mod estimator;
