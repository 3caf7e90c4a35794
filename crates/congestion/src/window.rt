// The window that a controller starts from, in bytes.
ghost use Rattle.std.specs.Prelude.{◌≡◌};
ghost use Rattle.congestion.specs.Limits.{InWindow};

use refusals::{Layer, Refusal};

/// The window that a controller starts from, in bytes.
// A newtype of its own: see `Mtu`.
#[derive(Clone, Copy)]
pub struct InitialWindow {
    bytes: u64,
    ghost within: { InWindow bytes },
}

impl InitialWindow {
    ghost use Rattle.values.specs.Makers.{Made};

    /// The smallest initial window: four datagrams of 1,500 bytes.
    pub const MIN: u64 = 6_000;

    /// The largest initial window: 2^24, up to which every whole number is an f32.
    pub const MAX: u64 = 16_777_216;

    /// The initial window of `bytes`, from 6,000 to 16,777,216.
    pub fn new(bytes: u64) -> Result<InitialWindow, Refusal>
        ensures { Made (InWindow bytes) (λ w. w.bytes ≡ bytes) result }
    {
        if !(Self::MIN..=Self::MAX).contains(&bytes) {
            return Err(Refusal::OutsideLimit(Layer::Value));
        }
        Ok(InitialWindow { bytes })
    }

    /// The bytes of the window.
    pub fn get(&self) -> u64
        ensures { result ≡ self.now.bytes }
    {
        self.bytes
    }
}

impl Default for InitialWindow {
    ghost is_default = { λ w. w.bytes ≡ 12000 };

    /// Ten datagrams of 1,200 bytes, which is what RFC 9002 recommends at that size.
    fn default() -> InitialWindow {
        InitialWindow { bytes: 12_000 }
    }
}
