// Round-trip times: a first sample of 50 ms, and then one of 90 ms.
ghost use Rattle.std.specs.Prelude.{◌≡◌, Ok};
ghost use Rattle.figures.specs.RttFigures.{after_90, smoothing_of};

use refusals::Refusal;
use rtt::estimator::RttEstimator;
use values::rtt::Rtt;

#[derive(Clone, Copy)]
pub struct Smoothing {
    pub smoothed: u64,
    pub variation: u64,
}

// After a sample of 50 ms and one of 90 ms, for which the peer reported `ack_delay`.
pub fn after_two_samples(ack_delay: u64) -> Result<Smoothing, Refusal>
    ensures { result ≡ Ok (smoothing_of (after_90 ack_delay)) }
{
    let mut estimator = RttEstimator::new(Rtt::new(100_000_000)?);
    estimator.update(0, 50_000_000)?;
    estimator.update(ack_delay, 90_000_000)?;
    Ok(Smoothing {
        smoothed: estimator.get(),
        variation: estimator.variation(),
    })
}
