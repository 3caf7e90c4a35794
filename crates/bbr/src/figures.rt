// Worked figures, which the controller's parts compute.
ghost use Rattle.std.specs.Prelude.{◌≡◌};
ghost use Rattle.bbr_rounds.specs.Aggregation.{excess};
ghost use Rattle.bbr_state.specs.Cycle.{offset_of};
ghost use Rattle.bbr.specs.Figures.{Figures, slow, recovering, fast};

use bbr_calls::calls::{on_ack, on_mtu_update, on_sent, window};
use bbr_rounds::ack_aggregation::AckAggregationState;
use bbr_rounds::recovery::RecoveryState;
use bbr_state::state::{BbrState, Mode};
use draws::recorded::Recorded;
use draws::source::DrawSource;

/// What the worked figures come to.
#[derive(Clone, Copy, Drop)]
pub struct Worked {
    /// The target at a minimum RTT of a microsecond, a bandwidth of 100,000 and a gain of 1.
    pub target: u64,
    /// The window in recovery, 4,800 bytes, after the MTU rose to 1,500.
    pub held: u64,
    /// The excess of 2,400 and of 18,446,744,073,710 bytes after 15.372287 s at 1,200 bytes a nanosecond.
    pub explained: u64,
    pub ahead: u64,
}

fn slow_path() -> BbrState
    ensures { result ≡ slow }
{
    let mut state = BbrState::new(240_000, 1_200);
    on_sent(&mut state, 1_000_000, 1_200, 1);
    on_sent(&mut state, 1_000_000, 1_200, 2);
    on_ack(&mut state, 50_000_000, 1_200, false, 1_000);
    on_ack(&mut state, 62_000_000, 1_200, false, 1_000);
    state
}

fn in_recovery() -> BbrState
    ensures { result ≡ recovering }
{
    let mut state = BbrState::new(240_000, 1_200);
    state.phase.mode = Mode::ProbeBw;
    state.recovery.recovery_state = RecoveryState::Conservation;
    state.recovery.recovery_window = 4_800;
    state
}

// The excess of `bytes`, where the product of bandwidth and time stops at 2^64 - 1.
fn excess_of(bytes: u64) -> u64
    ensures { result ≡ excess (fast bytes) 0 15422287001 1200000000000 }
{
    let bandwidth = 1_200_000_000_000;
    let mut acks = AckAggregationState::new();
    let _ = acks.update_ack_aggregation_bytes(bytes, 50_000_001, 0, bandwidth);
    acks.update_ack_aggregation_bytes(0, 15_422_287_001, 0, bandwidth)
}

/// The worked figures, computed: the facts hold of the definitions, and the code gives them.
pub fn compute() -> Worked
    ensures stand { Figures }
    ensures target { result.target ≡ 240000 }
    ensures held { result.held ≡ 4800 }
    ensures explained { result.explained ≡ 0 }
    ensures ahead { result.ahead ≡ 1 }
{
    let slow = slow_path();
    let mut recovering = in_recovery();
    on_mtu_update(&mut recovering, 1_500);
    Worked {
        target: slow.get_target_cwnd(1.0),
        held: window(&recovering),
        explained: excess_of(2_400),
        ahead: excess_of(18_446_744_073_710),
    }
}

// Where a connection that starts to cruise enters the cycle.
fn entry_offset<D: DrawSource>(draws: &mut D) -> u8
    ensures value { result ≡ offset_of (D.next_draw (D.model draws.old)) }
    ensures drawn { D.model draws.new ≡ D.after_draw (D.model draws.old) }
{
    let mut state = BbrState::new(240_000, 1_200);
    state.enter_probe_bandwidth_mode(0, draws);
    state.phase.current_cycle_offset
}

/// The offsets that the draws 0, 1 and 6 give.
pub fn entry_offsets() -> (u8, u8, u8)
    ensures { result ≡ (0, 2, 7) }
{
    let mut draws = Recorded::new([0, 1, 6, 0, 0, 0, 0, 0]);
    let lowest = entry_offset(&mut draws);
    let second = entry_offset(&mut draws);
    let highest = entry_offset(&mut draws);
    (lowest, second, highest)
}
