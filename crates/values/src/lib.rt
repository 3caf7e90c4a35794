// Values that keep their limits for as long as they exist.
#![tactic(auto)]

pub mod mtu;
pub mod opening;
pub mod rtt;
