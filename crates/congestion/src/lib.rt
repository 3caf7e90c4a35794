// Congestion control: what every controller offers, and the laws that code above one may use.
#![tactic(auto)]

pub mod congestion_window;
pub mod controller;
pub mod exchange;
pub mod metrics;
pub mod totals;
pub mod window;
