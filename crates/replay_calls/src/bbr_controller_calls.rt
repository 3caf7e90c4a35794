// Calls of BBR, with a source of draws.
use crate::call::{Call, FromCall, OrNone};
use crate::controller_calls::accepted;
use crate::replayed::{Fields, FieldsOf};
use bbr::bbr::Bbr;
use bbr::config::BbrConfig;
use bbr_rounds::ack_aggregation::AckAggregationState;
use bbr_state::state::BbrState;
use draws::recorded::Recorded;
use draws::source::DrawSource;
use draws::xorshift::Xorshift;
use std::fmt;
use std::num::f32_to_bits_with_nan;

// The eight draws are the arguments from the fifth on.
impl FromCall for Recorded {
    fn from_call(call: &Call) -> anyhow::Result<Recorded> {
        let mut draws = [0; 8];
        for (draw, place) in draws.iter_mut().zip(4..) {
            *draw = u8::try_from(call.number(place)?)?;
        }
        Ok(Recorded::new(draws))
    }
}

// The seed is the fifth argument.
impl FromCall for Xorshift {
    fn from_call(call: &Call) -> anyhow::Result<Xorshift> {
        let seed = u32::try_from(call.number(4)?)?;
        Ok(Xorshift::new(seed))
    }
}

impl<D: DrawSource + Copy + FromCall> FromCall for Bbr<D> {
    fn from_call(call: &Call) -> anyhow::Result<Bbr<D>> {
        let draws = D::from_call(call)?;
        let config = accepted(BbrConfig::new(call.number(0)?))?;
        Ok(Bbr::new(config, call.mtu(1)?, draws))
    }
}

impl Fields for AckAggregationState {
    fn write_fields<W: fmt::Write>(&self, f: &mut fmt::Formatter<W>) -> fmt::Result {
        let max_ack_height = FieldsOf(&self.max_ack_height);
        let start = OrNone(self.aggregation_epoch_start_time);
        let bytes = self.aggregation_epoch_bytes;
        write!(f, "{max_ack_height} {start} {bytes}")
    }
}

// From the initial window to the gains.
fn write_mode<W: fmt::Write>(state: &BbrState, f: &mut fmt::Formatter<W>) -> fmt::Result {
    let BbrState {
        limits,
        gains,
        phase,
        recovery,
        growth,
        flow,
        ..
    } = *state;
    let estimation = FieldsOf(&state.max_bandwidth);
    write!(
        f,
        "{} {} {estimation} {} ",
        limits.initial_window, limits.current_mtu, flow.acked_bytes
    )?;
    let mode = phase.mode;
    let recovery_state = recovery.recovery_state;
    write!(
        f,
        "{mode:?} {} {recovery_state:?} {} {} ",
        recovery.lost_bytes,
        recovery.recovery_window,
        u8::from(growth.is_at_full_bandwidth)
    )?;
    let pacing_gain = f32_to_bits_with_nan(phase.pacing_gain);
    let high_gain = f32_to_bits_with_nan(gains.high_gain);
    let drain_gain = f32_to_bits_with_nan(gains.drain_gain);
    let cwnd_gain = f32_to_bits_with_nan(phase.cwnd_gain);
    let high_cwnd_gain = f32_to_bits_with_nan(gains.high_cwnd_gain);
    write!(f, "{pacing_gain:08x} {high_gain:08x} {drain_gain:08x} ")?;
    write!(f, "{cwnd_gain:08x} {high_cwnd_gain:08x}")
}

// From the last cycle to the pacing rate.
fn write_flow<W: fmt::Write>(state: &BbrState, f: &mut fmt::Formatter<W>) -> fmt::Result {
    let BbrState {
        limits,
        phase,
        rtt_probe,
        flow,
        ..
    } = *state;
    let last_cycle_start = OrNone(phase.last_cycle_start);
    write!(f, "{last_cycle_start} {} ", phase.current_cycle_offset)?;
    write!(
        f,
        "{} {} {} ",
        limits.init_cwnd, limits.min_cwnd, flow.prev_in_flight_count
    )?;
    let exit_at = OrNone(rtt_probe.exit_probe_rtt_at);
    let started_at = OrNone(rtt_probe.probe_rtt_last_started_at);
    let quiescence = u8::from(rtt_probe.exiting_quiescence);
    write!(
        f,
        "{exit_at} {started_at} {} {quiescence} {}",
        flow.min_rtt, flow.pacing_rate
    )
}

// From the greatest number acknowledged to the rounds without a gain.
fn write_rounds<W: fmt::Write>(state: &BbrState, f: &mut fmt::Formatter<W>) -> fmt::Result {
    let BbrState {
        recovery,
        rounds,
        growth,
        flow,
        ..
    } = *state;
    write!(
        f,
        "{} {} {} {} ",
        rounds.max_acked_packet_number,
        rounds.max_sent_packet_number,
        recovery.end_recovery_at_packet_number,
        flow.cwnd
    )?;
    write!(
        f,
        "{} {} {} {}",
        rounds.current_round_trip_end_packet_number,
        rounds.round_count,
        growth.bw_at_last_round,
        growth.round_wo_bw_gain
    )
}

impl<D: DrawSource + Copy> Fields for Bbr<D> {
    fn write_fields<W: fmt::Write>(&self, f: &mut fmt::Formatter<W>) -> fmt::Result {
        let (state, _) = self.parts();
        write_mode(&state, f)?;
        write!(f, " ")?;
        write_flow(&state, f)?;
        write!(f, " ")?;
        write_rounds(&state, f)?;
        let aggregation = FieldsOf(&state.ack_aggregation);
        let next_draw = self.next_draw();
        write!(f, " {aggregation} {next_draw}")
    }
}
