// What became of a line, as the report says it.
ghost use Rattle.std.specs.Prelude.{Some};
ghost use Rattle.window_log.specs.Reports.{field_text, fault_text, standing_text, error_text};

use crate::event::{Fault, Field};
use crate::session::{Standing, StepError};
use std::fmt;

impl fmt::Display for Field {
    ghost output = { λ x. Some (field_text x) };

    fn fmt<W: fmt::Write>(&self, f: &mut fmt::Formatter<W>) -> fmt::Result {
        match self {
            Field::Size => write!(f, "SIZE"),
            Field::SentTime => write!(f, "SENT"),
            Field::Time => write!(f, "TIME"),
        }
    }
}

impl fmt::Display for Fault {
    ghost output = { λ x. Some (fault_text x) };

    fn fmt<W: fmt::Write>(&self, f: &mut fmt::Formatter<W>) -> fmt::Result {
        match self {
            Fault::Kind => write!(f, "no such event"),
            Fault::Number(field, fault) => write!(f, "{field} {fault}"),
            Fault::Flag => write!(f, "no such flag"),
        }
    }
}

impl fmt::Display for Standing {
    ghost output = { λ x. Some (standing_text x) };

    fn fmt<W: fmt::Write>(&self, f: &mut fmt::Formatter<W>) -> fmt::Result {
        let window = self.window;
        match self.threshold {
            Some(threshold) => write!(f, "{window} {threshold}"),
            None => write!(f, "{window} none"),
        }
    }
}

impl fmt::Display for StepError {
    ghost output = { λ x. Some (error_text x) };

    fn fmt<W: fmt::Write>(&self, f: &mut fmt::Formatter<W>) -> fmt::Result {
        match self {
            StepError::Refused(refusal) => write!(f, "{refusal}"),
            StepError::Unreadable(fault) => write!(f, "{fault}"),
        }
    }
}
