ghost use Rattle.std.specs.Prelude.{◌≡◌};
ghost use Rattle.filter.specs.RttOrder.{no_faster, slowest};
ghost use Rattle.std.proofs.Common.{rules};

use crate::order::TotalOrder;
use crate::rtt_sample::RttSample;

// The smaller round-trip time is the greater sample, so that the maximum is the fastest.
impl TotalOrder for RttSample {
    ghost at_most = { no_faster };

    ghost bottom = { slowest };

    ghost reflexive = { Prim.search rules };

    ghost transitive = { Prim.search rules };

    ghost total = { Prim.search rules };

    ghost lowest = { Prim.search rules };

    fn least() -> RttSample {
        RttSample {
            rtt: u64::MAX,
            number: 0,
        }
    }

    fn at_most(&self, other: &RttSample) -> bool {
        other.rtt <= self.rtt
    }
}
