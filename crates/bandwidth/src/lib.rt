// The bandwidth of a path, as BBR estimates it.
#![tactic(auto)]

pub mod bw_estimation;
