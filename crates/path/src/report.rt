// What a path has to say of all the numbers that it handed out.
use cells::table::Counts;
use filter::min_max::MinMaxSample;
use filter::rtt_sample::RttSample;

#[derive(Clone, Copy)]
pub struct Report {
    /// Numbers handed out.
    pub handed_out: u64,
    /// Numbers in each of the five places.
    pub counts: Counts,
    /// The fastest round trip of the last rounds, with its round and number.
    pub fastest: MinMaxSample<RttSample>,
}
