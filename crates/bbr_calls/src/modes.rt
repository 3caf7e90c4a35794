// From one mode to the next.
ghost use Rattle.std.specs.Prelude.{◌≡◌};
ghost use Rattle.bbr_calls.specs.ModeOrder.{Leaves, Probes};
ghost use Rattle.bbr_calls.specs.Modes.{is_done, started, drained, leaves_drain, drain_left, startup_left, is_expired, probe_entered, probe_left, resumes, taken};

use bbr_state::state::{AckBatch, BbrState, Mode};
use draws::source::DrawSource;

// How long the minimum RTT is measured at least: 200 ms.
const K_PROBE_RTT_TIME: u64 = 200_000_000;

// How long a measurement of the minimum RTT holds: 10 s.
const MIN_RTT_EXPIRY: u64 = 10_000_000_000;

/// Starts over from the gains of the startup.
pub fn enter_startup_mode(state: &mut BbrState)
    ensures { state.new ≡ started state.old }
{
    state.phase.mode = Mode::Startup;
    state.phase.pacing_gain = state.gains.high_gain;
    state.phase.cwnd_gain = state.gains.high_cwnd_gain;
}

// From startup to drain, at the full bandwidth.
fn maybe_exit_startup(state: &mut BbrState)
    ensures { state.new ≡ drained state.old }
{
    if state.phase.mode == Mode::Startup && state.growth.is_at_full_bandwidth {
        state.phase.mode = Mode::Drain;
        state.phase.pacing_gain = state.gains.drain_gain;
        state.phase.cwnd_gain = state.gains.high_cwnd_gain;
    }
}

// From drain to cruising, when the queue is empty.
fn maybe_exit_drain<D: DrawSource>(state: &mut BbrState, batch: &AckBatch, draws: &mut D)
    ensures state { state.new ≡ drain_left state.old batch.now.time batch.now.in_flight (D.next_draw (D.model draws.old)) }
    ensures drawn { D.model draws.new ≡ taken D.after_draw (leaves_drain state.old batch.now.in_flight) (D.model draws.old) }
{
    if state.phase.mode == Mode::Drain && batch.in_flight <= state.get_target_cwnd(1.0) {
        state.enter_probe_bandwidth_mode(batch.time, draws);
    }
}

/// Leaves startup at the full bandwidth, and drain once the queue is empty.
pub fn maybe_exit_startup_or_drain<D: DrawSource>(
    state: &mut BbrState,
    batch: &AckBatch,
    draws: &mut D,
)
    ensures state { state.new ≡ startup_left state.old batch.now.time batch.now.in_flight (D.next_draw (D.model draws.old)) }
    ensures drawn { D.model draws.new ≡ taken D.after_draw (leaves_drain (drained state.old) batch.now.in_flight) (D.model draws.old) }
    ensures order { Leaves state.old.growth.is_at_full_bandwidth state.old.phase.mode state.new.phase.mode }
{
    maybe_exit_startup(state);
    maybe_exit_drain(state, batch, draws);
}

/// Whether the minimum RTT is to be measured again: the application is not the limit, and it was last measured
/// more than ten seconds ago, or never.
pub fn is_min_rtt_expired(state: &BbrState, time: u64, app_limited: bool) -> bool
    ensures { result ≡ is_expired state.now time app_limited }
{
    !app_limited
        && state
            .rtt_probe
            .probe_rtt_last_started_at
            .is_none_or(|last| time.saturating_sub(last) > MIN_RTT_EXPIRY)
}

fn maybe_enter_probe_rtt(state: &mut BbrState, batch: &AckBatch)
    ensures { state.new ≡ probe_entered state.old batch.now.time batch.now.app_limited }
{
    if is_min_rtt_expired(state, batch.time, batch.app_limited)
        && !state.rtt_probe.exiting_quiescence
        && state.phase.mode != Mode::ProbeRtt
    {
        state.phase.mode = Mode::ProbeRtt;
        state.phase.pacing_gain = 1.0;
        // The time to exit is decided once little enough is in flight.
        state.rtt_probe.exit_probe_rtt_at = None;
        state.rtt_probe.probe_rtt_last_started_at = Some(batch.time);
    }
}

fn maybe_exit_probe_rtt<D: DrawSource>(state: &mut BbrState, batch: &AckBatch, draws: &mut D)
    ensures state { state.new ≡ probe_left state.old batch.now.time batch.now.is_round_start batch.now.in_flight (D.next_draw (D.model draws.old)) }
    ensures drawn { D.model draws.new ≡ taken D.after_draw (resumes state.old batch.now.time batch.now.is_round_start) (D.model draws.old) }
{
    match (state.phase.mode, state.rtt_probe.exit_probe_rtt_at) {
        (Mode::ProbeRtt, None) => {
            // A datagram more, since the window is checked before one is sent.
            let small = state
                .get_probe_rtt_cwnd()
                .saturating_add(state.limits.current_mtu);
            if batch.in_flight < small {
                state.rtt_probe.exit_probe_rtt_at = Some(
                    batch.time.saturating_add(K_PROBE_RTT_TIME),
                );
            }
        }
        (Mode::ProbeRtt, Some(exit_time)) if batch.is_round_start && batch.time >= exit_time => {
            if state.growth.is_at_full_bandwidth {
                state.enter_probe_bandwidth_mode(batch.time, draws);
            } else {
                enter_startup_mode(state);
            }
        }
        _ => {}
    }
    state.rtt_probe.exiting_quiescence = false;
}

/// Measures the minimum RTT where the last measurement is too old, and stops when it is done.
#[tactic(auto, using(crate::proofs::Order::probes_by))]
pub fn maybe_enter_or_exit_probe_rtt<D: DrawSource>(
    state: &mut BbrState,
    batch: &AckBatch,
    draws: &mut D,
)
    ensures state { state.new ≡ probe_left (probe_entered state.old batch.now.time batch.now.app_limited) batch.now.time batch.now.is_round_start batch.now.in_flight (D.next_draw (D.model draws.old)) }
    ensures drawn { D.model draws.new ≡ taken D.after_draw (resumes (probe_entered state.old batch.now.time batch.now.app_limited) batch.now.time batch.now.is_round_start) (D.model draws.old) }
    ensures order { Probes state.old.growth.is_at_full_bandwidth (is_expired state.old batch.now.time batch.now.app_limited) (is_done state.old batch.now.time batch.now.is_round_start) state.old.phase.mode state.new.phase.mode }
{
    maybe_enter_probe_rtt(state, batch);
    maybe_exit_probe_rtt(state, batch, draws);
}
