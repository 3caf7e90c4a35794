// Durations, which are counted in nanoseconds, as floats.
ghost use Rattle.std.specs.Prelude.{◌≡◌};
ghost use Rattle.numbers.specs.Seconds.{in_seconds};

const NANOS_PER_SEC: u64 = 1_000_000_000;

/// A duration in seconds, as Rust's `Duration::as_secs_f64`.
// std's own takes longer, since its seconds may be any u64.
pub fn seconds(nanos: u64) -> f64
    ensures { result ≡ in_seconds nanos }
{
    let whole = nanos / NANOS_PER_SEC;
    let rest = nanos % NANOS_PER_SEC;
    whole as f64 + rest as f64 / NANOS_PER_SEC as f64
}
