// Calls of the bandwidth estimation.
use crate::call::{Call, FromCall, OrNone};
use crate::replayed::{Fields, FieldsOf, Replayed};
use anyhow::anyhow;
use bandwidth::bw_estimation::{BandwidthEstimation, RunningTotal, bw_from_delta};
use std::fmt;

impl Fields for RunningTotal {
    fn write_fields<W: fmt::Write>(&self, f: &mut fmt::Formatter<W>) -> fmt::Result {
        let (bytes, prev_bytes, time, prev_time) = self.parts();
        let time = OrNone(time);
        let prev_time = OrNone(prev_time);
        write!(f, "{bytes} {prev_bytes} {time} {prev_time}")
    }
}

impl FromCall for BandwidthEstimation {
    fn from_call(_call: &Call) -> anyhow::Result<BandwidthEstimation> {
        Ok(BandwidthEstimation::new())
    }
}

impl Fields for BandwidthEstimation {
    fn write_fields<W: fmt::Write>(&self, f: &mut fmt::Formatter<W>) -> fmt::Result {
        let (acked, sent, max_filter, at_last_window) = self.parts();
        let acked = FieldsOf(&acked);
        let sent = FieldsOf(&sent);
        let filter = FieldsOf(&max_filter);
        write!(f, "{acked} {sent} {filter} {at_last_window}")
    }
}

impl Replayed for BandwidthEstimation {
    fn perform(&mut self, call: &Call) -> anyhow::Result<Option<OrNone>> {
        match call.name {
            "on_sent" => self.on_sent(call.number(0)?, call.number(1)?),
            "on_ack" => self.on_ack(
                call.number(0)?,
                call.number(2)?,
                call.number(3)?,
                call.flag(4)?,
            ),
            "end_acks" => self.end_acks(),
            "bw_from_delta" => {
                let rate = bw_from_delta(call.number(0)?, call.number(1)?);
                return Ok(Some(OrNone(rate)));
            }
            _ => return Err(anyhow!("no call of a bandwidth estimation")),
        }
        Ok(None)
    }

    fn write_answers<W: fmt::Write>(&self, f: &mut fmt::Formatter<W>) -> fmt::Result {
        let this_window = self.bytes_acked_this_window();
        let estimate = self.get_estimate();
        write!(f, " {this_window} {estimate}")
    }
}
