// A sending path above a controller.
use cells::tracker::Tracker;
use filter::min_max::MinMax;
use filter::rtt_sample::RttSample;
use pacing::pacer::Pacer;
use rtt::estimator::RttEstimator;

pub mod calls;
pub mod questions;

// Clauses take its state by `state_of`: as the value of a model it would name the controller's model, which a `Value` cannot yet.
#[derive(Drop)]
pub struct Path<C> {
    tracker: Tracker,
    controller: C,
    rtt: RttEstimator,
    // The fastest round trips of the last rounds.
    rtt_filter: MinMax<RttSample>,
    pacer: Pacer,
    // The greatest number acknowledged.
    largest_acked: Option<u64>,
    // Batches of acks that have ended.
    round: u64,
}
