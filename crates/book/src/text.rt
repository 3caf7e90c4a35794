// An answer as it is printed.
ghost use Rattle.std.specs.Prelude.{Some};
ghost use Rattle.book.specs.Text.{answer_text};

use crate::call::{Accepted, Answer};
use std::fmt;

/// What is printed of a call: its answer, or that none was made.
#[derive(Clone, Copy)]
pub struct Printed(pub Option<Answer>);

impl fmt::Display for Printed {
    ghost output = { λ a. Some (answer_text a.0) };

    fn fmt<W: fmt::Write>(&self, f: &mut fmt::Formatter<W>) -> fmt::Result {
        match &self.0 {
            None => write!(f, "-"),
            Some(Ok(Accepted::Granted(label))) => {
                let number = label.number;
                write!(f, "n{number}")
            }
            Some(Ok(Accepted::Done)) => write!(f, "ok"),
            Some(Err(refusal)) => {
                let number = refusal.number();
                write!(f, "r{number}")
            }
        }
    }
}
