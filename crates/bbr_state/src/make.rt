ghost use Rattle.std.specs.Prelude.{◌≡◌, ◌*◌};
ghost use Rattle.bbr_state.specs.Makers.{opened};

use crate::state::*;
use bandwidth::bw_estimation::BandwidthEstimation;
use bbr_rounds::ack_aggregation::AckAggregationState;
use bbr_rounds::recovery::Recovery;
use bbr_rounds::rounds::Rounds;

// The gain of the startup, about 2 / ln 2.
const K_DEFAULT_HIGH_GAIN: f32 = 2.885;

/// Four datagrams.
pub fn calculate_min_window(current_mtu: u16) -> u64
    ensures { result ≡ 4 * current_mtu }
{
    4 * u64::from(current_mtu)
}

impl BbrState {
    /// The state of a connection that has sent nothing.
    pub fn new(initial_window: u64, current_mtu: u16) -> BbrState
        ensures { result ≡ opened initial_window current_mtu }
    {
        BbrState {
            limits: Limits {
                initial_window,
                current_mtu: u64::from(current_mtu),
                init_cwnd: initial_window,
                min_cwnd: calculate_min_window(current_mtu),
            },
            gains: HighGains {
                high_gain: K_DEFAULT_HIGH_GAIN,
                drain_gain: 1.0 / K_DEFAULT_HIGH_GAIN,
                high_cwnd_gain: K_DEFAULT_HIGH_GAIN,
            },
            phase: Phase {
                mode: Mode::Startup,
                pacing_gain: K_DEFAULT_HIGH_GAIN,
                cwnd_gain: K_DEFAULT_HIGH_GAIN,
                last_cycle_start: None,
                current_cycle_offset: 0,
            },
            rtt_probe: RttProbe::default(),
            recovery: Recovery::new(),
            rounds: Rounds::new(),
            growth: BandwidthGrowth::default(),
            flow: Flow {
                cwnd: initial_window,
                ..Flow::default()
            },
            max_bandwidth: BandwidthEstimation::new(),
            ack_aggregation: AckAggregationState::new(),
        }
    }
}
