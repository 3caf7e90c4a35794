// What BBR counts by rounds: the rounds themselves, the recovery from losses, and the aggregation of acks.
#![tactic(auto)]

pub mod ack_aggregation;
pub mod recovery;
pub mod rounds;
