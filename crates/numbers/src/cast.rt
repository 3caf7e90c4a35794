// Casts between u64 and the floats, as IEEE 754 has them: an integer to the nearest float, a float
// to its whole part.
ghost use Rattle.std.specs.Prelude.{◌≡◌, ◌*◌, ◌^◌, ◌<◌, ◌≤◌, pos, from_bits};
ghost use Rattle.std.specs.Float.Ieee.{prec, ones, hid, of_int, to_unsigned};
ghost use Rattle.std.specs.Float.Ieee.Nearest.{closest};
ghost use Rattle.numbers.specs.Nearest.{Nearest};
ghost use Rattle.numbers.specs.Whole.{WholePart};

use crate::ieee::IeeeFloat;

// The digit of an f64's significand that its bits leave out.
const LEADING_DIGIT: u64 = 1 << 52;

// n / 2^k to the nearest, and at a tie to the even number.
fn rounded(n: u64, k: u32) -> u64
    requires { (0 < k) × (k < 63) }
    ensures { result ≡ closest n (2 ^ k) }
{
    let unit = 1u64 << k;
    let whole = n >> k;
    let twice = n % unit * 2;
    if twice < unit {
        whole
    } else if twice == unit {
        whole + whole % 2
    } else {
        whole + 1
    }
}

// The bits of the float nearest to n. The significand carries into the exponent's field by itself.
#[tactic(auto, using(crate::proofs::Leading::zeros_few, crate::proofs::Leading::nearest_bits))]
fn nearest_bits<F: IeeeFloat>(n: u64) -> u64
    requires { 2 ^ prec F.format ≤ n }
    ensures value { from_bits F.format result ≡ of_int F.format (pos n) }
    ensures finite { result ≤ ones F.format * hid F.format }
{
    let digits = F::DIGITS;
    let zeros = n.leading_zeros();
    let excess = 64 - digits;
    let significand = rounded(n << zeros, excess);
    let exponent = (excess - zeros) as u64 + F::LOWEST;
    (exponent << (digits - 1)) + significand
}

/// The float nearest to `n`, a tie going to the even last digit.
// std's own casts take longer: to f32 everywhere, and to f64 up to 2^53.
pub fn nearest<F: IeeeFloat>(n: u64) -> F
    ensures is { F.value result ≡ of_int F.format (pos n) }
    ensures nearest { Nearest F.format n (F.value result) }
{
    if n <= 1 << F::DIGITS {
        F::exact(n)
    } else {
        F::of_bits(nearest_bits::<F>(n))
    }
}

// std's own cast takes longer, since it shifts to the left or to the right.
#[tactic(auto, using(crate::proofs::Parts::below_one, crate::proofs::Parts::past_range, crate::proofs::Parts::f64_read))]
fn truncated(x: f64) -> u64
    ensures { result ≡ to_unsigned 64 x }
{
    if !(1.0 <= x) {
        return 0;
    }
    if 18446744073709551616.0 <= x {
        return u64::MAX;
    }
    // The significand, its leading digit put back, stands at the top of 64 bits, as for 2^63, whose
    // exponent's field is 1086, and moves down by what the exponent is short of that.
    let bits = x.to_bits();
    let significand = (bits % LEADING_DIGIT + LEADING_DIGIT) << 11;
    significand >> (1086 - (bits >> 52))
}

/// The whole part of `x`: 0 for a NaN and for what is below 0, 2^64 - 1 for what is larger.
pub fn whole_part<F: IeeeFloat>(x: F) -> u64
    ensures is { result ≡ to_unsigned 64 (F.value x) }
    ensures whole { WholePart (F.value x) result }
{
    truncated(x.widened())
}
