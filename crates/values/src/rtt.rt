// A round-trip time, in nanoseconds.
ghost use Rattle.std.specs.Prelude.{◌≡◌};
ghost use Rattle.values.specs.Limits.{InRtt, clamped};

use refusals::{Layer, Refusal};

// A newtype of its own: see `Mtu`.
#[derive(Clone, Copy, Debug)]
pub struct Rtt {
    nanos: u64,
    ghost within: { InRtt nanos },
}

impl Rtt {
    ghost use Rattle.values.specs.Makers.{Made};

    /// The shortest round-trip time: a microsecond.
    pub const MIN: u64 = 1_000;

    /// The longest round-trip time: ten seconds.
    pub const MAX: u64 = 10_000_000_000;

    // The round-trip time of `nanos`, from 1,000 (a microsecond) to 10^10 (ten seconds).
    pub fn new(nanos: u64) -> Result<Rtt, Refusal>
        ensures { Made (InRtt nanos) (λ t. t.nanos ≡ nanos) result }
    {
        if !(Self::MIN..=Self::MAX).contains(&nanos) {
            return Err(Refusal::OutsideLimit(Layer::Value));
        }
        Ok(Rtt { nanos })
    }

    /// The round-trip time nearest to `nanos`.
    pub fn clamped(nanos: u64) -> Rtt
        ensures { result.nanos ≡ clamped nanos }
    {
        Rtt {
            nanos: nanos.clamp(Self::MIN, Self::MAX),
        }
    }

    pub fn get(&self) -> u64
        ensures { result ≡ self.now.nanos }
    {
        self.nanos
    }
}
