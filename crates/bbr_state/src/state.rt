// What BBR holds, in groups of what changes together. Times are nanoseconds, sizes bytes, rates bytes a second.
use bandwidth::bw_estimation::BandwidthEstimation;
use bbr_rounds::ack_aggregation::AckAggregationState;
use bbr_rounds::recovery::Recovery;
use bbr_rounds::rounds::Rounds;

/// What the sender is after at present.
#[derive(Clone, Copy, Debug, PartialEq, Eq)]
pub enum Mode {
    /// Startup phase of the connection.
    Startup,
    /// After the highest bandwidth of the startup, a lower pacing rate drains the queue.
    Drain,
    /// Cruising mode.
    ProbeBw,
    /// Sends little for a while, to empty the buffer and measure the real minimum RTT.
    ProbeRtt,
}

/// What follows from the configuration and the MTU.
#[derive(Clone, Copy)]
pub struct Limits {
    /// The configured initial window.
    pub initial_window: u64,
    pub current_mtu: u64,
    /// The window where no bandwidth is known.
    pub init_cwnd: u64,
    /// The smallest window: four datagrams.
    pub min_cwnd: u64,
}

/// Gains that never change.
#[derive(Clone, Copy)]
pub struct HighGains {
    pub high_gain: f32,
    pub drain_gain: f32,
    pub high_cwnd_gain: f32,
}

/// The mode, with its gains and its place in the gain cycle.
#[derive(Clone, Copy)]
pub struct Phase {
    pub mode: Mode,
    pub pacing_gain: f32,
    pub cwnd_gain: f32,
    pub last_cycle_start: Option<u64>,
    pub current_cycle_offset: u8,
}

/// When the minimum RTT is measured.
#[derive(Clone, Copy, Default)]
pub struct RttProbe {
    pub exit_probe_rtt_at: Option<u64>,
    pub probe_rtt_last_started_at: Option<u64>,
    pub exiting_quiescence: bool,
}

/// Whether the bandwidth still grows.
#[derive(Clone, Copy, Default)]
pub struct BandwidthGrowth {
    pub is_at_full_bandwidth: bool,
    pub bw_at_last_round: u64,
    pub round_wo_bw_gain: u64,
}

/// The rate and the window, and what they are computed from. Before the first sample they are 0 and no `None`: the crate computes
/// with that 0, and its recorded states print it.
#[derive(Clone, Copy, Default)]
pub struct Flow {
    pub acked_bytes: u64,
    pub prev_in_flight_count: u64,
    pub min_rtt: u64,
    pub pacing_rate: u64,
    pub cwnd: u64,
}

/// All that BBR holds but its source of draws.
#[derive(Clone, Copy)]
pub struct BbrState {
    pub limits: Limits,
    pub gains: HighGains,
    pub phase: Phase,
    pub rtt_probe: RttProbe,
    pub recovery: Recovery,
    pub rounds: Rounds,
    pub growth: BandwidthGrowth,
    pub flow: Flow,
    pub max_bandwidth: BandwidthEstimation,
    pub ack_aggregation: AckAggregationState,
}

/// What a batch of acks ended with and came to.
#[derive(Clone, Copy)]
pub struct AckBatch {
    pub time: u64,
    /// Bytes still in flight.
    pub in_flight: u64,
    pub app_limited: bool,
    pub bytes_acked: u64,
    /// Bytes acknowledged above what the bandwidth explains.
    pub excess_acked: u64,
    pub is_round_start: bool,
}
