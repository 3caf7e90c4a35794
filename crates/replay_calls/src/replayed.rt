// What calls are made on, and what is printed of it.
use crate::call::{Call, FromCall, OrNone};
use std::fmt;

// A value whose fields are printed.
pub(crate) trait Fields {
    fn write_fields<W: fmt::Write>(&self, f: &mut fmt::Formatter<W>) -> fmt::Result;
}

// Prints the fields.
#[derive(Clone, Copy)]
pub(crate) struct FieldsOf<'a, T>(pub(crate) &'a T);

impl<T: Fields> fmt::Display for FieldsOf<'_, T> {
    fn fmt<W: fmt::Write>(&self, f: &mut fmt::Formatter<W>) -> fmt::Result {
        self.0.write_fields(f)
    }
}

// A subject of calls, which the first call of a sequence makes.
pub(crate) trait Replayed: FromCall + Fields + Drop {
    // Makes a call, and answers what it answered, where it answers anything.
    fn perform(&mut self, call: &Call) -> anyhow::Result<Option<OrNone>>;

    // Writes the answers of the questions, a space before each.
    fn write_answers<W: fmt::Write>(&self, f: &mut fmt::Formatter<W>) -> fmt::Result;
}

// Prints the fields, and the answers of the questions.
#[derive(Clone, Copy)]
pub(crate) struct StateOf<'a, S>(pub(crate) &'a S);

impl<S: Replayed> fmt::Display for StateOf<'_, S> {
    fn fmt<W: fmt::Write>(&self, f: &mut fmt::Formatter<W>) -> fmt::Result {
        self.0.write_fields(f)?;
        self.0.write_answers(f)
    }
}
