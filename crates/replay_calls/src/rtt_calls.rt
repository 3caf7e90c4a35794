// Calls of the RTT estimator.
use crate::call::{Call, FromCall, OrNone};
use crate::replayed::{Fields, Replayed};
use anyhow::anyhow;
use rtt::estimator::RttEstimator;
use std::fmt;
use values::rtt::Rtt;

// An estimator with an initial time.
pub(crate) fn opened(nanos: u64) -> anyhow::Result<RttEstimator> {
    let initial_rtt = Rtt::new(nanos).map_err(|_| anyhow!("no round-trip time"))?;
    Ok(RttEstimator::new(initial_rtt))
}

// Takes a sample: an ack delay and a round-trip time.
pub(crate) fn sample(estimator: &mut RttEstimator, call: &Call) -> anyhow::Result<()> {
    let sampled = estimator.update(call.number(0)?, call.number(1)?);
    sampled.map_err(|_| anyhow!("refused"))
}

impl FromCall for RttEstimator {
    fn from_call(call: &Call) -> anyhow::Result<RttEstimator> {
        opened(call.number(0)?)
    }
}

impl Fields for RttEstimator {
    fn write_fields<W: fmt::Write>(&self, f: &mut fmt::Formatter<W>) -> fmt::Result {
        let (latest, smoothed, var, min) = self.parts();
        let smoothed = OrNone(smoothed);
        write!(f, "{latest} {smoothed} {var} {min}")
    }
}

impl Replayed for RttEstimator {
    fn perform(&mut self, call: &Call) -> anyhow::Result<Option<OrNone>> {
        if call.name != "update" {
            return Err(anyhow!("no call of an estimator"));
        }
        sample(self, call)?;
        Ok(None)
    }

    fn write_answers<W: fmt::Write>(&self, f: &mut fmt::Formatter<W>) -> fmt::Result {
        let get = self.get();
        let conservative = self.conservative();
        let pto_base = self.pto_base();
        write!(f, " {get} {conservative} {pto_base}")
    }
}
