// A call as it is recorded: a name and its arguments, with a space between.
use anyhow::{Context, anyhow};
use std::fmt;
use std::num::ParseIntError;
use std::str::FromStr;
use values::mtu::Mtu;

#[derive(Clone, Copy)]
pub(crate) struct Call<'a> {
    pub(crate) name: &'a str,
    arguments: &'a str,
}

impl<'a> From<&'a str> for Call<'a> {
    fn from(line: &'a str) -> Call<'a> {
        let (name, arguments) = line.split_once(' ').unwrap_or((line, ""));
        Call { name, arguments }
    }
}

impl<'a> Call<'a> {
    pub(crate) fn word(&self, place: usize) -> anyhow::Result<&'a str> {
        let mut words = self.arguments.split(' ');
        words.nth(place).context("an argument is missing")
    }

    // A number in decimal.
    pub(crate) fn number(&self, place: usize) -> anyhow::Result<u64> {
        Ok(self.word(place)?.parse::<u64>()?)
    }

    pub(crate) fn size(&self, place: usize) -> anyhow::Result<u16> {
        Ok(u16::try_from(self.number(place)?)?)
    }

    pub(crate) fn mtu(&self, place: usize) -> anyhow::Result<Mtu> {
        Mtu::new(self.size(place)?).map_err(|_| anyhow!("no MTU"))
    }

    // 0 or 1.
    pub(crate) fn flag(&self, place: usize) -> anyhow::Result<bool> {
        Ok(self.number(place)? == 1)
    }

    pub(crate) fn number_if_any(&self, place: usize) -> anyhow::Result<Option<u64>> {
        let OrNone(number) = self.word(place)?.parse::<OrNone>()?;
        Ok(number)
    }

    // The bits of a float, in hexadecimal.
    pub(crate) fn bits(&self, place: usize) -> anyhow::Result<u32> {
        Ok(u32::from_str_radix(self.word(place)?, 16)?)
    }
}

// A value that a recorded call describes and makes. It is not `TryFrom`, since a bound over a call's lifetime gets no proof.
pub(crate) trait FromCall {
    fn from_call(call: &Call) -> anyhow::Result<Self>;
}

// A number, or `none`.
#[derive(Clone, Copy)]
pub(crate) struct OrNone(pub(crate) Option<u64>);

impl FromStr for OrNone {
    type Err = ParseIntError;

    fn from_str(word: &str) -> Result<OrNone, ParseIntError> {
        if word == "none" {
            return Ok(OrNone(None));
        }
        Ok(OrNone(Some(word.parse::<u64>()?)))
    }
}

impl fmt::Display for OrNone {
    fn fmt<W: fmt::Write>(&self, f: &mut fmt::Formatter<W>) -> fmt::Result {
        match self.0 {
            Some(n) => write!(f, "{n}"),
            None => write!(f, "none"),
        }
    }
}
