// Calls of the filter over u64.
use crate::call::{Call, FromCall, OrNone};
use crate::replayed::{Fields, Replayed};
use anyhow::anyhow;
use filter::min_max::MinMax;
use std::fmt;

impl FromCall for MinMax<u64> {
    fn from_call(_call: &Call) -> anyhow::Result<MinMax<u64>> {
        Ok(MinMax::new())
    }
}

impl Fields for MinMax<u64> {
    fn write_fields<W: fmt::Write>(&self, f: &mut fmt::Formatter<W>) -> fmt::Result {
        let window = self.window();
        let (first, second, third) = self.samples();
        write!(f, "{window} {} {} ", first.time, first.value)?;
        write!(f, "{} {} ", second.time, second.value)?;
        write!(f, "{} {}", third.time, third.value)
    }
}

impl Replayed for MinMax<u64> {
    fn perform(&mut self, call: &Call) -> anyhow::Result<Option<OrNone>> {
        match call.name {
            "update_max" => self.update_max(call.number(0)?, call.number(1)?),
            "reset" => self.reset(),
            _ => return Err(anyhow!("no call of a filter")),
        }
        Ok(None)
    }

    fn write_answers<W: fmt::Write>(&self, f: &mut fmt::Formatter<W>) -> fmt::Result {
        let best = self.get();
        write!(f, " {best}")
    }
}
