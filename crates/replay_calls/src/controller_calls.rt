// Calls of a congestion controller, with the estimator that it is shown.
use crate::call::{Call, FromCall, OrNone};
use crate::replayed::{Fields, Replayed};
use crate::rtt_calls;
use anyhow::anyhow;
use congestion::controller::Controller;
use cubic::config::CubicConfig;
use cubic::cubic::Cubic;
use new_reno::config::NewRenoConfig;
use new_reno::new_reno::NewReno;
use refusals::Refusal;
use rtt::estimator::RttEstimator;
use std::fmt;
use std::num::{f32_from_bits_with_nan, f32_to_bits_with_nan, f64_to_bits_with_nan};

// The estimator before the first sample: the crate's 333 ms.
const INITIAL_RTT: u64 = 333_000_000;

#[derive(Drop)]
pub(crate) struct Controlled<C> {
    controller: C,
    rtt: RttEstimator,
}

fn tell<C: Controller>(controller: &mut C, rtt: &RttEstimator, call: &Call) -> anyhow::Result<()> {
    match call.name {
        "on_sent" => controller.on_sent(call.number(0)?, call.number(1)?, call.number(2)?),
        "on_ack" => controller.on_ack(
            call.number(0)?,
            call.number(1)?,
            call.number(2)?,
            call.flag(3)?,
            rtt,
        ),
        "on_end_acks" => controller.on_end_acks(
            call.number(0)?,
            call.number(1)?,
            call.flag(2)?,
            call.number_if_any(3)?,
        ),
        "on_congestion_event" => controller.on_congestion_event(
            call.number(0)?,
            call.number(1)?,
            call.flag(2)?,
            call.number(3)?,
        ),
        "on_mtu_update" => controller.on_mtu_update(call.mtu(0)?),
        _ => return Err(anyhow!("no call of a controller")),
    }
    Ok(())
}

impl<C: FromCall + Drop> FromCall for Controlled<C> {
    fn from_call(call: &Call) -> anyhow::Result<Controlled<C>> {
        let controller = C::from_call(call)?;
        let rtt = rtt_calls::opened(INITIAL_RTT)?;
        Ok(Controlled { controller, rtt })
    }
}

impl<C: Fields> Fields for Controlled<C> {
    fn write_fields<W: fmt::Write>(&self, f: &mut fmt::Formatter<W>) -> fmt::Result {
        self.controller.write_fields(f)
    }
}

impl<C: Controller + FromCall + Fields + Drop> Replayed for Controlled<C> {
    fn perform(&mut self, call: &Call) -> anyhow::Result<Option<OrNone>> {
        match call.name {
            "rtt_new" => self.rtt = RttEstimator::from_call(call)?,
            "rtt_update" => rtt_calls::sample(&mut self.rtt, call)?,
            _ => tell(&mut self.controller, &self.rtt, call)?,
        }
        Ok(None)
    }

    fn write_answers<W: fmt::Write>(&self, f: &mut fmt::Formatter<W>) -> fmt::Result {
        let window = self.controller.window();
        let metrics = self.controller.metrics();
        let congestion_window = metrics.congestion_window;
        let ssthresh = OrNone(metrics.ssthresh);
        let pacing_rate = OrNone(metrics.pacing_rate);
        let initial_window = self.controller.initial_window();
        write!(
            f,
            " {window} {congestion_window} {ssthresh} {pacing_rate} {initial_window}"
        )
    }
}

// A configuration, where its limits are kept.
pub(crate) fn accepted<T: Drop>(config: Result<T, Refusal>) -> anyhow::Result<T> {
    config.map_err(|_| anyhow!("no configuration"))
}

impl FromCall for NewReno {
    fn from_call(call: &Call) -> anyhow::Result<NewReno> {
        let factor = f32_from_bits_with_nan(call.bits(3)?);
        let config = accepted(NewRenoConfig::new(call.number(0)?, factor))?;
        Ok(NewReno::new(config, call.number(2)?, call.mtu(1)?))
    }
}

impl Fields for NewReno {
    fn write_fields<W: fmt::Write>(&self, f: &mut fmt::Formatter<W>) -> fmt::Result {
        let (config, mtu, window, ssthresh, recovery, acked) = self.parts();
        let initial = config.initial_window();
        let factor = f32_to_bits_with_nan(config.loss_reduction_factor());
        let mtu = mtu.get();
        write!(
            f,
            "{initial} {factor:08x} {mtu} {window} {ssthresh} {recovery} {acked}"
        )
    }
}

impl FromCall for Cubic {
    fn from_call(call: &Call) -> anyhow::Result<Cubic> {
        let config = accepted(CubicConfig::new(call.number(0)?))?;
        Ok(Cubic::new(config, call.number(2)?, call.mtu(1)?))
    }
}

impl Fields for Cubic {
    fn write_fields<W: fmt::Write>(&self, f: &mut fmt::Formatter<W>) -> fmt::Result {
        let (window, ssthresh, recovery, state, mtu) = self.parts();
        let initial = self.initial_window();
        let recovery = OrNone(recovery);
        let k = f64_to_bits_with_nan(state.k);
        let w_max = f64_to_bits_with_nan(state.w_max);
        let cwnd_inc = state.cwnd_inc;
        let mtu = mtu.get();
        write!(
            f,
            "{initial} {window} {ssthresh} {recovery} {k:016x} {w_max:016x} {cwnd_inc} {mtu}"
        )
    }
}
