// Lines of measurements: `RTT DELAY`, whole nanoseconds in decimal with one space between.
ghost use Rattle.std.specs.Prelude.{◌≡◌};
ghost use Rattle.measurements.specs.Lines.{measured, line_in};

use crate::number::{NumberFault, parse};
use crate::parts::{is_skipped, split_once, without_return};

// What is wrong with a line.
#[derive(Clone, Copy, Debug, PartialEq, Eq)]
pub enum LineFault {
    NoSpace,
    Rtt(NumberFault),
    Delay(NumberFault),
}

// A round-trip time and the delay that the peer reported with its ack.
#[derive(Clone, Copy, Debug, PartialEq, Eq)]
pub struct Measurement {
    pub rtt: u64,
    pub ack_delay: u64,
}

// In a function of its own the search for the space takes six instructions a byte; inside its caller it takes ten.
#[inline(never)]
fn read_pair(line: &[u8]) -> Result<Measurement, LineFault>
    ensures { result ≡ measured line.now }
{
    let (rtt, delay) = split_once(line, b' ').ok_or(LineFault::NoSpace)?;
    let rtt = parse(rtt).map_err(LineFault::Rtt)?;
    let ack_delay = parse(delay).map_err(LineFault::Delay)?;
    Ok(Measurement { rtt, ack_delay })
}

// Reads a line, its newline taken off; no `FromStr`, since lines are bytes. A blank line and a comment have no measurement.
pub fn read(line: &[u8]) -> Result<Option<Measurement>, LineFault>
    ensures { result ≡ line_in line.now }
{
    let line = without_return(line);
    if is_skipped(line) {
        return Ok(None);
    }
    read_pair(line).map(Some)
}
