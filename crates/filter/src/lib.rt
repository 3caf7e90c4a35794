// A windowed maximum over any total order.
#![tactic(auto)]

pub mod min_max;
pub mod order;
pub mod rtt_sample;
