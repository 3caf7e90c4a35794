use measurements::number::NumberFault;
use std::error::Error;

pub mod read;

/// Bytes that were sent at a time and are acknowledged or found lost at a later one.
#[derive(Clone, Copy)]
pub struct Past {
    pub bytes: u64,
    pub sent: u64,
    pub time: u64,
    /// Whether the line ends with its word: `app-limited` of an acknowledgement, `persistent` of a loss.
    pub flagged: bool,
}

/// What a line of a log tells.
#[derive(Clone, Copy)]
pub enum Event {
    Sent { bytes: u64, time: u64 },
    Acked(Past),
    Lost(Past),
    End { time: u64 },
    Resized { size: u64 },
}

/// A number of a line.
#[derive(Clone, Copy, Debug)]
pub enum Field {
    Size,
    SentTime,
    Time,
}

/// What is wrong with a line.
#[derive(Clone, Copy, Debug)]
pub enum Fault {
    Kind,
    Number(Field, NumberFault),
    Flag,
}

impl Error for Fault {}
