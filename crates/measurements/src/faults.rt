// What is wrong with a line, in words.
ghost use Rattle.std.specs.Prelude.{Some};
ghost use Rattle.measurements.specs.Faults.{number_fault_text, line_fault_text};

use crate::line::LineFault;
use crate::number::NumberFault;
use std::error::Error;
use std::fmt;

impl fmt::Display for NumberFault {
    ghost output = { λ e. Some (number_fault_text e) };

    fn fmt<W: fmt::Write>(&self, f: &mut fmt::Formatter<W>) -> fmt::Result {
        match self {
            NumberFault::Missing => write!(f, "is missing"),
            NumberFault::NotDecimal => write!(f, "is not a decimal number"),
            NumberFault::TooLarge => write!(f, "is above 18446744073709551615"),
        }
    }
}

impl Error for NumberFault {}

impl fmt::Display for LineFault {
    ghost output = { λ e. Some (line_fault_text e) };

    fn fmt<W: fmt::Write>(&self, f: &mut fmt::Formatter<W>) -> fmt::Result {
        match self {
            LineFault::NoSpace => write!(f, "no space between RTT and DELAY"),
            LineFault::Rtt(fault) => write!(f, "RTT {fault}"),
            LineFault::Delay(fault) => write!(f, "DELAY {fault}"),
        }
    }
}

impl Error for LineFault {}
