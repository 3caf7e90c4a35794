// The worked figures: what the library answers where the answers were worked out by hand.
#![tactic(auto)]

pub mod filter_figures;
pub mod pacer_figures;
pub mod rtt_figures;
pub mod table;
