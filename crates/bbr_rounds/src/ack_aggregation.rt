// Acks that arrive together after a pause bring more bytes at once than the bandwidth explains.
ghost use Rattle.std.specs.Prelude.{◌≡◌};
ghost use Rattle.bbr_rounds.specs.Aggregation.{unaggregated, expected, excess, aggregated};

use filter::min_max::MinMax;

/// The bytes of the present epoch of acks, and how far acks were ahead of the bandwidth in the last rounds.
#[derive(Clone, Copy, Default)]
pub struct AckAggregationState {
    /// The greatest excess of the last rounds.
    pub max_ack_height: MinMax<u64>,
    /// When the epoch began.
    pub aggregation_epoch_start_time: Option<u64>,
    /// The bytes acknowledged in the epoch.
    pub aggregation_epoch_bytes: u64,
}

impl AckAggregationState {
    /// No epoch has begun.
    pub fn new() -> AckAggregationState
        ensures { result ≡ unaggregated }
    {
        AckAggregationState::default()
    }

    // The bytes that the bandwidth delivers since the epoch began.
    fn expected_bytes_acked(&self, time: u64, max_bandwidth: u64) -> u64
        ensures { result ≡ expected self.now time max_bandwidth }
    {
        let start = self.aggregation_epoch_start_time.unwrap_or(time);
        max_bandwidth.saturating_mul(time.saturating_sub(start) / 1_000) / 1_000_000
    }

    /// Takes the bytes newly acknowledged in `round`, and answers by how many the epoch is ahead of the bandwidth.
    pub fn update_ack_aggregation_bytes(
        &mut self,
        newly_acked_bytes: u64,
        time: u64,
        round: u64,
        max_bandwidth: u64,
    ) -> u64
        ensures state { self.new ≡ aggregated self.old newly_acked_bytes time round max_bandwidth }
        ensures answer { result ≡ excess self.old newly_acked_bytes time max_bandwidth }
    {
        let expected_bytes_acked = self.expected_bytes_acked(time, max_bandwidth);
        // The epoch ends as soon as acks come no faster than the bandwidth.
        if self.aggregation_epoch_bytes <= expected_bytes_acked {
            self.aggregation_epoch_bytes = newly_acked_bytes;
            self.aggregation_epoch_start_time = Some(time);
            return 0;
        }
        self.aggregation_epoch_bytes = self
            .aggregation_epoch_bytes
            .saturating_add(newly_acked_bytes);
        let diff = self
            .aggregation_epoch_bytes
            .saturating_sub(expected_bytes_acked);
        self.max_ack_height.update_max(round, diff);
        diff
    }
}
