// What each call makes of BBR's state.
#![tactic(auto)]

pub mod calls;
pub mod modes;
