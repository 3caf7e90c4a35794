// What the layers refuse: twelve numbers and five layers, fixed by `specs/Refusals.antt`.
#![tactic(auto)]

ghost use Rattle.std.specs.Prelude.{◌≡◌, Some};
ghost use Rattle.refusals.specs.Refusals.{number_of, layer_of, layer_name, refusal_text, permit_of};

use std::convert::Infallible;
use std::error::Error;
use std::fmt;

// The layer that refuses.
#[derive(Clone, Copy, Debug, PartialEq, Eq)]
pub enum Layer {
    Value,
    Estimator,
    Pacer,
    Path,
    Trace,
}

// The permit of a call that is given none: it has no value.
pub type NoPermit = Infallible;

// A refusal. `P` is the permit that `NotHeld` hands back, so a call that is given no permit never answers `NotHeld`.
#[derive(Clone, Copy, Debug, PartialEq, Eq)]
pub enum Refusal<P = NoPermit> {
    // 1: a value is outside its limit; the layer says whose limit it is
    OutsideLimit(Layer),
    // 2: a size of 0 or above the MTU
    Size,
    // 3: a time before the latest, or above 2^62 - 1
    Time,
    // 4: a number is held
    Held,
    // 5: no number is left
    NumbersExhausted,
    // 6: the cell of the next number is taken
    CellTaken,
    // 7: the bytes held and in flight, with this size, pass the window
    Window,
    // 8: not before this time
    Paced(u64),
    // 9: the permit's number and size are not held; the permit comes back
    NotHeld(P),
    // 10: the number is not in flight
    NotInFlight,
    // 11: the trace's counts and its length do not agree, or it is too long
    Malformed,
    // 12: an event's kind is not known
    UnknownKind,
}

impl<P> Refusal<P> {
    // The refusal's number, 1 to 12.
    pub fn number(&self) -> u8
        ensures { result ≡ number_of self.now }
    {
        match self {
            Refusal::OutsideLimit(_) => 1,
            Refusal::Size => 2,
            Refusal::Time => 3,
            Refusal::Held => 4,
            Refusal::NumbersExhausted => 5,
            Refusal::CellTaken => 6,
            Refusal::Window => 7,
            Refusal::Paced(_) => 8,
            Refusal::NotHeld(_) => 9,
            Refusal::NotInFlight => 10,
            Refusal::Malformed => 11,
            Refusal::UnknownKind => 12,
        }
    }

    // The layer that refuses.
    pub fn layer(&self) -> Layer
        ensures { result ≡ layer_of self.now }
    {
        match self {
            Refusal::OutsideLimit(layer) => *layer,
            Refusal::Malformed | Refusal::UnknownKind => Layer::Trace,
            _ => Layer::Path,
        }
    }

    // The permit that refusal 9 hands back.
    pub fn into_permit(self) -> Option<P>
        ensures { result ≡ permit_of self }
    {
        match self {
            Refusal::NotHeld(permit) => Some(permit),
            _ => None,
        }
    }
}

impl fmt::Display for Layer {
    ghost output = { λ l. Some (layer_name l) };

    fn fmt<W: fmt::Write>(&self, f: &mut fmt::Formatter<W>) -> fmt::Result {
        match self {
            Layer::Value => write!(f, "value"),
            Layer::Estimator => write!(f, "estimator"),
            Layer::Pacer => write!(f, "pacer"),
            Layer::Path => write!(f, "path"),
            Layer::Trace => write!(f, "trace"),
        }
    }
}

impl<P> fmt::Display for Refusal<P> {
    ghost output = { λ e. Some (refusal_text e) };

    fn fmt<W: fmt::Write>(&self, f: &mut fmt::Formatter<W>) -> fmt::Result {
        let number = self.number();
        let layer = self.layer();
        write!(f, "r{number} {layer}")
    }
}

impl<P: fmt::Debug + Drop> Error for Refusal<P> {}
