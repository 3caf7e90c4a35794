// A path grants, numbers and follows datagrams above any congestion controller.
#![tactic(auto)]

pub mod path;
pub mod permit;
pub mod report;
