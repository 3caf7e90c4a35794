// The largest datagram of a path, in bytes.
ghost use Rattle.std.specs.Prelude.{◌≡◌};
ghost use Rattle.values.specs.Limits.{InMtu};

use refusals::{Layer, Refusal};

// A newtype of its own, as `Rtt` and the initial window are: the three differ in the integer and the limits, and one type over both would
// have to say by a trait how its limits read the integer, while each name here says what the number is.
#[derive(Clone, Copy, Debug)]
pub struct Mtu {
    value: u16,
    ghost within: { InMtu value },
}

impl Mtu {
    ghost use Rattle.values.specs.Makers.{Made};

    /// The smallest MTU.
    pub const MIN: u16 = 1_200;

    /// The largest MTU.
    pub const MAX: u16 = 1_500;

    // The MTU of `value` bytes, from 1,200 to 1,500.
    pub fn new(value: u16) -> Result<Mtu, Refusal>
        ensures { Made (InMtu value) (λ m. m.value ≡ value) result }
    {
        if !(Self::MIN..=Self::MAX).contains(&value) {
            return Err(Refusal::OutsideLimit(Layer::Value));
        }
        Ok(Mtu { value })
    }

    pub fn get(&self) -> u16
        ensures { result ≡ self.now.value }
    {
        self.value
    }
}
