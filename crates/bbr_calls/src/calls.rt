// The crate's calls, on the plain state.
ghost use Rattle.std.specs.Prelude.{◌≡◌, ◌≤◌, not};
ghost use Rattle.bbr_state.specs.Targets.{bandwidth};
ghost use Rattle.bbr_state.specs.Tests.{is_probe_rtt};
ghost use Rattle.bbr_calls.specs.ModeOrder.{Follows, NeverProbed};
ghost use Rattle.bbr_calls.specs.Modes.{is_expired};
ghost use Rattle.bbr_calls.specs.Calls.{window_of, told_sent, counted, told_ack, told_loss, told_mtu, batch_of, measured, gain_cycled, growth_checked, modelled, moved, left_draws, settled, resized, ended, ended_draws};

use crate::modes::{
    is_min_rtt_expired, maybe_enter_or_exit_probe_rtt, maybe_exit_startup_or_drain,
};
use bbr_rounds::recovery::RecoveryState;
use bbr_state::make::calculate_min_window;
use bbr_state::state::{AckBatch, BbrState, Mode};
use draws::source::DrawSource;

/// The bytes that may be in flight.
pub fn window(state: &BbrState) -> u64
    ensures { result ≡ window_of state.now }
{
    match (state.phase.mode, state.recovery.recovery_state) {
        (Mode::ProbeRtt, _) => state.get_probe_rtt_cwnd(),
        (Mode::Startup, _) | (_, RecoveryState::NotInRecovery) => state.flow.cwnd,
        (Mode::Drain | Mode::ProbeBw, RecoveryState::Conservation | RecoveryState::Growth) => {
            state.flow.cwnd.min(state.recovery.recovery_window)
        }
    }
}

/// One or more packets were just sent.
pub fn on_sent(state: &mut BbrState, time: u64, bytes: u64, last_packet_number: u64)
    ensures state { state.new ≡ told_sent state.old time bytes last_packet_number }
    ensures kept { bandwidth state.new ≡ bandwidth state.old }
{
    state.rounds.max_sent_packet_number = last_packet_number;
    state.max_bandwidth.on_sent(time, bytes);
}

// Counts the bytes, and takes the least sample where it is below the minimum RTT, or that has expired.
fn count_ack(state: &mut BbrState, time: u64, bytes: u64, app_limited: bool, rtt_min: u64)
    ensures { state.new ≡ counted state.old time bytes app_limited rtt_min }
{
    state.flow.acked_bytes = state.flow.acked_bytes.saturating_add(bytes);
    if is_min_rtt_expired(state, time, app_limited) || state.flow.min_rtt > rtt_min {
        state.flow.min_rtt = rtt_min;
    }
}

/// A packet's delivery was confirmed, where the least sample of the RTT is `rtt_min`.
pub fn on_ack(state: &mut BbrState, time: u64, bytes: u64, app_limited: bool, rtt_min: u64)
    ensures state { state.new ≡ told_ack state.old time bytes app_limited rtt_min }
    ensures rises { bandwidth state.old ≤ bandwidth state.new }
{
    state
        .max_bandwidth
        .on_ack(time, bytes, state.rounds.round_count, app_limited);
    count_ack(state, time, bytes, app_limited, rtt_min);
}

/// Packets were deemed lost.
pub fn on_congestion_event(state: &mut BbrState, lost_bytes: u64)
    ensures { state.new ≡ told_loss state.old lost_bytes }
{
    state.recovery.lost_bytes = state.recovery.lost_bytes.saturating_add(lost_bytes);
}

/// The known MTU of the path has changed.
pub fn on_mtu_update(state: &mut BbrState, new_mtu: u16)
    ensures { state.new ≡ told_mtu state.old new_mtu }
{
    let min_cwnd = calculate_min_window(new_mtu);
    state.limits.current_mtu = u64::from(new_mtu);
    state.limits.min_cwnd = min_cwnd;
    state.limits.init_cwnd = state.limits.initial_window.max(min_cwnd);
    state.flow.cwnd = state.flow.cwnd.max(min_cwnd);
}

// What the acks since the last batch came to. Here alone the four come one by one, as the trait's call has them.
fn measure(
    state: &mut BbrState,
    time: u64,
    in_flight: u64,
    app_limited: bool,
    largest_packet_num_acked: Option<u64>,
) -> AckBatch
    ensures state { state.new ≡ measured state.old time largest_packet_num_acked }
    ensures answer { result ≡ batch_of state.old time in_flight app_limited largest_packet_num_acked }
{
    let bytes_acked = state.max_bandwidth.bytes_acked_this_window();
    let excess_acked = state.ack_aggregation.update_ack_aggregation_bytes(
        bytes_acked,
        time,
        state.rounds.round_count,
        state.max_bandwidth.get_estimate(),
    );
    state.max_bandwidth.end_acks();
    let is_round_start = state.rounds.end_acks(bytes_acked, largest_packet_num_acked);
    AckBatch {
        time,
        in_flight,
        app_limited,
        bytes_acked,
        excess_acked,
        is_round_start,
    }
}

fn advance_gain_cycle(state: &mut BbrState, batch: &AckBatch)
    ensures { state.new ≡ gain_cycled state.old batch.now.time batch.now.in_flight }
{
    if state.phase.mode == Mode::ProbeBw {
        state.update_gain_cycle_phase(batch);
    }
}

fn check_growth(state: &mut BbrState, batch: &AckBatch)
    ensures { state.new ≡ growth_checked state.old batch.now.is_round_start batch.now.app_limited }
{
    if batch.is_round_start && !state.growth.is_at_full_bandwidth {
        state.check_if_full_bw_reached(batch.app_limited);
    }
}

// Recovery, the gain cycle and the growth of the bandwidth.
fn update_model(state: &mut BbrState, batch: &AckBatch)
    ensures { state.new ≡ modelled state.old batch.now }
{
    state
        .recovery
        .update_recovery_state(&mut state.rounds, batch.is_round_start);
    advance_gain_cycle(state, batch);
    check_growth(state, batch);
}

fn change_mode<D: DrawSource>(state: &mut BbrState, batch: &AckBatch, draws: &mut D)
    ensures state { state.new ≡ moved D.next_draw D.after_draw state.old (D.model draws.old) batch.now }
    ensures drawn { D.model draws.new ≡ left_draws D.next_draw D.after_draw state.old (D.model draws.old) batch.now }
{
    maybe_exit_startup_or_drain(state, batch, draws);
    maybe_enter_or_exit_probe_rtt(state, batch, draws);
}

fn settle(state: &mut BbrState, batch: &AckBatch)
    ensures { state.new ≡ settled state.old batch.now.in_flight }
{
    state.flow.prev_in_flight_count = batch.in_flight;
    state.recovery.lost_bytes = 0;
}

// The pacing rate and the windows, after the model.
fn resize(state: &mut BbrState, batch: &AckBatch)
    ensures { state.new ≡ resized state.old batch.now }
{
    state.calculate_pacing_rate();
    state.calculate_cwnd(batch);
    state.recovery.calculate_recovery_window(
        state.limits.current_mtu,
        state.limits.min_cwnd,
        batch.bytes_acked,
        batch.in_flight,
    );
    settle(state, batch);
}

/// A batch of acks has ended, with `in_flight` bytes still in flight.
pub fn on_end_acks<D: DrawSource>(
    state: &mut BbrState,
    time: u64,
    in_flight: u64,
    app_limited: bool,
    largest_packet_num_acked: Option<u64>,
    draws: &mut D,
)
    ensures state { state.new ≡ ended D.next_draw D.after_draw state.old (D.model draws.old) time in_flight app_limited largest_packet_num_acked }
    ensures drawn { D.model draws.new ≡ ended_draws D.next_draw D.after_draw state.old (D.model draws.old) time in_flight app_limited largest_packet_num_acked }
    ensures kept { bandwidth state.new ≡ bandwidth state.old }
    ensures first { NeverProbed state.old → is_probe_rtt state.new.phase.mode ≡ not app_limited }
    ensures order { Follows state.new.growth.is_at_full_bandwidth (is_expired state.old time app_limited) state.old.rtt_probe.exit_probe_rtt_at time (batch_of state.old time in_flight app_limited largest_packet_num_acked).is_round_start state.old.phase.mode state.new.phase.mode }
{
    let batch = measure(
        state,
        time,
        in_flight,
        app_limited,
        largest_packet_num_acked,
    );
    update_model(state, &batch);
    change_mode(state, &batch, draws);
    resize(state, &batch);
}
