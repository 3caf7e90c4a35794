// Worked figures, which the controller computes.
ghost use Rattle.std.specs.Prelude.{◌≡◌};

use crate::config::CubicConfig;
use crate::cubic::Cubic;
use congestion::exchange::exchange;
use rtt::estimator::RttEstimator;
use values::mtu::Mtu;

/// The window after the first datagram of 1,200 bytes was sent and acknowledged: 12,000 and those.
// NewReno has the same figure of its own: over any controller `exchange` states no number, since only a known one fixes it.
pub fn first_exchange(mtu: Mtu, rtt: &RttEstimator) -> u64
    ensures { result ≡ 13_200 }
{
    let mut controller = Cubic::new(CubicConfig::default(), 0, mtu);
    exchange(&mut controller, 1_000_000, 51_000_000, 1_200, 0, rtt)
}
