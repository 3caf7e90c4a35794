// Calls of the pacer.
use crate::call::{Call, FromCall, OrNone};
use crate::replayed::{Fields, Replayed};
use anyhow::anyhow;
use pacing::pacer::Pacer;
use std::fmt;

fn delay(pacer: &mut Pacer, call: &Call) -> anyhow::Result<OrNone> {
    let mtu = call.mtu(2)?;
    let delay = pacer.delay(
        call.number(0)?,
        call.number(1)?,
        mtu,
        call.number(3)?,
        call.number(4)?,
    );
    delay.map(OrNone).map_err(|_| anyhow!("refused"))
}

impl FromCall for Pacer {
    fn from_call(call: &Call) -> anyhow::Result<Pacer> {
        let mtu = call.mtu(2)?;
        Ok(Pacer::new(call.number(0)?, call.number(1)?, mtu, call.number(3)?))
    }
}

impl Fields for Pacer {
    fn write_fields<W: fmt::Write>(&self, f: &mut fmt::Formatter<W>) -> fmt::Result {
        let (capacity, last_window, last_mtu, tokens, prev) = self.parts();
        write!(f, "{capacity} {last_window} {last_mtu} {tokens} {prev}")
    }
}

impl Replayed for Pacer {
    fn perform(&mut self, call: &Call) -> anyhow::Result<Option<OrNone>> {
        match call.name {
            "on_transmit" => {
                self.on_transmit(call.size(0)?);
                Ok(None)
            }
            "delay" => Ok(Some(delay(self, call)?)),
            _ => Err(anyhow!("no call of a pacer")),
        }
    }

    // It has no questions.
    fn write_answers<W: fmt::Write>(&self, _f: &mut fmt::Formatter<W>) -> fmt::Result {
        Ok(())
    }
}
