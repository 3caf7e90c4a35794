// Logs of what a congestion controller is told, and the window after each line.
#![tactic(auto)]

pub mod event;
pub mod report;
pub mod session;
pub mod tell;
mod text;
