// What became of a line, as the report says it.
ghost use Rattle.std.specs.Prelude.{Some};
ghost use Rattle.rtt_report.specs.Reports.{taken_text, error_text};

use crate::session::{StepError, Taken};
use std::fmt;

impl fmt::Display for Taken {
    ghost output = { λ t. Some (taken_text t) };

    fn fmt<W: fmt::Write>(&self, f: &mut fmt::Formatter<W>) -> fmt::Result {
        let Taken {
            place,
            smoothed,
            variation,
            minimum,
            pto_base,
        } = self;
        write!(f, "{place} {smoothed} {variation} {minimum} {pto_base}")
    }
}

impl fmt::Display for StepError {
    ghost output = { λ why. Some (error_text why) };

    fn fmt<W: fmt::Write>(&self, f: &mut fmt::Formatter<W>) -> fmt::Result {
        match self {
            StepError::Refused { place, refusal } => write!(f, "{place} {refusal}"),
            StepError::Unreadable { line, fault } => write!(f, "line {line}: {fault}"),
        }
    }
}
