// The two float types, as the casts see them.
ghost use Rattle.std.specs.Prelude.{◌≡◌, ℕ, ◌*◌, ◌^◌, ◌≤◌, pos, from_bits, refl};
ghost use Rattle.std.specs.Float.{Float, Format, binary32, binary64};
ghost use Rattle.std.specs.Float.Ieee.{prec, low, ones, hid, of_int};

use std::num::f32_to_f64_with_nan;

/// A float of a format of IEEE 754. Its methods are steps of the casts, so nothing outside this
/// crate names it.
pub trait IeeeFloat: Copy {
    /// The binary digits of a significand, the leading one counted.
    const DIGITS: u32;

    /// The least float above 0 is 2^-LOWEST.
    const LOWEST: u64;

    ghost DIGITS: { ℕ };

    ghost LOWEST: { ℕ };

    ghost format: { Format };

    ghost value: { Self → Float };

    /// `n` itself, which loses nothing.
    fn exact(n: u64) -> Self
        requires { n ≤ 2 ^ prec format }
        ensures { value result ≡ of_int format (pos n) };

    /// The float that these bits stand for, which is no NaN and has no sign.
    fn of_bits(bits: u64) -> Self
        requires { bits ≤ ones format * hid format }
        ensures { value result ≡ from_bits format bits };

    /// The same value as an f64, since every f32 is one.
    fn widened(self) -> f64
        ensures { result ≡ value self };

    ghost digits_is: { DIGITS ≡ prec format };

    ghost lowest_is: { LOWEST ≡ low format };
}

impl IeeeFloat for f32 {
    const DIGITS: u32 = 24;

    const LOWEST: u64 = 149;

    ghost DIGITS = { 24 };

    ghost LOWEST = { 149 };

    ghost format = { binary32 };

    ghost value = { λ x. x };

    ghost digits_is = { refl };

    ghost lowest_is = { refl };

    fn exact(n: u64) -> Self {
        n as f32
    }

    #[tactic(auto, using(std::proofs::lemmas::Float::not_nan_f32_bits))]
    fn of_bits(bits: u64) -> Self {
        f32::from_bits(bits as u32)
    }

    fn widened(self) -> f64 {
        f32_to_f64_with_nan(self)
    }
}

impl IeeeFloat for f64 {
    const DIGITS: u32 = 53;

    const LOWEST: u64 = 1074;

    ghost DIGITS = { 53 };

    ghost LOWEST = { 1074 };

    ghost format = { binary64 };

    ghost value = { λ x. x };

    ghost digits_is = { refl };

    ghost lowest_is = { refl };

    fn exact(n: u64) -> Self {
        n as f64
    }

    #[tactic(auto, using(std::proofs::lemmas::Float::not_nan_f64_bits))]
    fn of_bits(bits: u64) -> Self {
        f64::from_bits(bits)
    }

    fn widened(self) -> Self {
        self
    }
}
