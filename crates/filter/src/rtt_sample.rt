// A round-trip time and the number of the packet that showed it.
ghost use Rattle.std.specs.Prelude.{◌^◌, ◌<◌};

pub mod order;

#[derive(Clone, Copy)]
pub struct RttSample {
    pub rtt: u64,
    pub number: u64,
    // The laws of an order speak of every value, so the type says that this one fits.
    ghost fits: { rtt < 2 ^ 64 },
}
