// An estimate of a path's round-trip time, in nanoseconds: the crate's `RttEstimator`, call by call.
ghost use Rattle.std.specs.Prelude.{◌≤◌};
ghost use Rattle.std.specs.Option.{unwrap_or};
ghost use Rattle.values.specs.Limits.{InRtt};

use refusals::{Layer, Refusal};
use values::rtt::Rtt;

const TIMER_GRANULARITY: u64 = 1_000_000;

#[derive(Clone, Copy)]
pub struct RttEstimator {
    // The most recent sample, or the initial time before there is one.
    latest: u64,
    smoothed: Option<u64>,
    // The variation of the samples around the smoothed time.
    var: u64,
    // The least sample, no ack delay taken off.
    min: u64,
    ghost latest_within: { InRtt latest },
    ghost smoothed_within: { InRtt (unwrap_or smoothed latest) },
    ghost var_within: { var ≤ 10000000000 },
    ghost min_within: { InRtt min },
}

impl RttEstimator {
    ghost use Rattle.std.specs.Prelude.{◌≡◌, ℕ, List, [], ◌∷◌};
    ghost use Rattle.rtt.specs.Estimates.{Within, estimate_of, opened, best, cautious, probe_timeout, Updated};
    ghost use Rattle.rtt.specs.Histories.{After, Extends};

    // An estimator that has taken no sample.
    pub fn new(initial_rtt: Rtt) -> RttEstimator
        ensures value { estimate_of result ≡ opened initial_rtt.nanos }
        ensures history { After initial_rtt.nanos [] (estimate_of result) }
    {
        let initial = initial_rtt.get();
        RttEstimator {
            latest: initial,
            smoothed: None,
            var: initial / 2,
            min: initial,
        }
    }

    // The best estimate so far.
    pub fn get(&self) -> u64
        ensures value { result ≡ best (estimate_of self.now) }
        ensures within { InRtt result }
    {
        self.smoothed.unwrap_or(self.latest)
    }

    // The larger of the best estimate and the latest sample.
    pub fn conservative(&self) -> u64
        ensures value { result ≡ cautious (estimate_of self.now) }
        ensures within { InRtt result }
    {
        self.get().max(self.latest)
    }

    // The least sample, or the initial time before there is one.
    pub fn min(&self) -> u64
        ensures value { result ≡ (estimate_of self.now).minimum }
        ensures within { InRtt result }
    {
        self.min
    }

    // The variation of the samples around the smoothed time.
    pub fn variation(&self) -> u64
        ensures value { result ≡ (estimate_of self.now).variation }
        ensures within { result ≤ 10000000000 }
    {
        self.var
    }

    // The latest sample, the smoothed time, the variation and the least sample.
    pub fn parts(&self) -> (u64, Option<u64>, u64, u64)
        ensures value { result ≡ (self.now.latest, self.now.smoothed, self.now.var, self.now.min) }
        ensures within { Within (estimate_of self.now) }
    {
        (self.latest, self.smoothed, self.var, self.min)
    }

    // The base of the probe timeout, to which the peer's longest ack delay is added.
    pub fn pto_base(&self) -> u64
        ensures { result ≡ probe_timeout (estimate_of self.now) }
    {
        self.get() + (4 * self.var).max(TIMER_GRANULARITY)
    }

    // Takes a sample of `rtt`, for which the peer reported `ack_delay`.
    pub fn update(&mut self, ack_delay: u64, rtt: u64) -> Result<(), Refusal>
        ensures step { Updated (estimate_of self.old) ack_delay rtt result (estimate_of self.new) }
        ensures history { Extends (estimate_of self.old) rtt result (estimate_of self.new) }
    {
        if !(Rtt::MIN..=Rtt::MAX).contains(&rtt) {
            return Err(Refusal::OutsideLimit(Layer::Estimator));
        }
        let Some(smoothed) = self.smoothed else {
            *self = RttEstimator {
                latest: rtt,
                smoothed: Some(rtt),
                var: rtt / 2,
                min: rtt,
            };
            return Ok(());
        };
        let min = self.min.min(rtt);
        let adjusted = if min.saturating_add(ack_delay) <= rtt {
            rtt - ack_delay
        } else {
            rtt
        };
        *self = RttEstimator {
            latest: rtt,
            smoothed: Some((7 * smoothed + adjusted) / 8),
            var: (3 * self.var + smoothed.abs_diff(adjusted)) / 4,
            min,
        };
        Ok(())
    }
}
