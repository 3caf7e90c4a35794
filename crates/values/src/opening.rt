// What a path starts from.
ghost use Rattle.std.specs.Prelude.{◌≡◌};
ghost use Rattle.values.specs.Limits.{InNumber, InTime};

use crate::mtu::Mtu;
use crate::rtt::Rtt;
use refusals::{Layer, Refusal};

#[derive(Clone, Copy)]
pub struct Opening {
    first_number: u64,
    mtu: Mtu,
    initial_rtt: Rtt,
    start: u64,
    ghost number_within: { InNumber first_number },
    ghost start_within: { InTime start },
}

impl Opening {
    ghost use Rattle.values.specs.Makers.{Made, Holds};

    /// The last number of a path: 2^48 - 1.
    pub const MAX_NUMBER: u64 = 0xffff_ffff_ffff;

    /// The last time of a path: 2^62 - 1.
    pub const MAX_TIME: u64 = 0x3fff_ffff_ffff_ffff;

    // An opening whose first number is below 2^48 and whose start is below 2^62.
    pub fn new(
        first_number: u64,
        mtu: Mtu,
        initial_rtt: Rtt,
        start: u64,
    ) -> Result<Opening, Refusal>
        ensures { Made (InNumber first_number × InTime start) (Holds first_number mtu initial_rtt start) result }
    {
        if first_number > Self::MAX_NUMBER || start > Self::MAX_TIME {
            return Err(Refusal::OutsideLimit(Layer::Value));
        }
        Ok(Opening {
            first_number,
            mtu,
            initial_rtt,
            start,
        })
    }

    pub fn first_number(&self) -> u64
        ensures { result ≡ self.now.first_number }
    {
        self.first_number
    }

    pub fn mtu(&self) -> Mtu
        ensures { result ≡ self.now.mtu }
    {
        self.mtu
    }

    pub fn initial_rtt(&self) -> Rtt
        ensures { result ≡ self.now.initial_rtt }
    {
        self.initial_rtt
    }

    pub fn start(&self) -> u64
        ensures { result ≡ self.now.start }
    {
        self.start
    }
}
