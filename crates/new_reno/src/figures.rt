// Worked figures, which the controller computes.
ghost use Rattle.std.specs.Prelude.{◌≡◌, Ok as Accepted};
ghost use Rattle.values.specs.Makers.{Made};
ghost use Rattle.congestion.specs.Limits.{InWindow};
ghost use Rattle.new_reno.specs.Figures.{Figures};
ghost use Rattle.new_reno.specs.Limits.{half};
ghost use Rattle.new_reno.specs.Steps.{reno_model, opened};

use crate::config::NewRenoConfig;
use crate::new_reno::NewReno;
use congestion::controller::Controller;
use congestion::exchange::exchange;
use refusals::Refusal;
use rtt::estimator::RttEstimator;
use values::mtu::Mtu;

/// What the worked figures come to.
#[derive(Clone, Copy, Drop)]
pub struct Worked {
    /// A window of 13,200 after a loss.
    pub halved: u64,
    /// A window of 4,000 after a loss, at an MTU of 1,200.
    pub floored: u64,
}

// A controller at time 0, with a factor of 0.5 and an MTU of 1,200.
fn opening(initial_window: u64) -> Result<NewReno, Refusal>
    ensures { Made (InWindow initial_window) (λ c. reno_model c ≡ opened initial_window half 0 1_200) result }
{
    let mtu = Mtu::new(1_200)?;
    let config = NewRenoConfig::new(initial_window, 0.5)?;
    Ok(NewReno::new(config, 0, mtu))
}

/// The worked figures, computed: the facts hold of the definitions, and the controller gives them.
#[tactic(auto, using(crate::proofs::Worked::figures))]
pub fn compute() -> Result<Worked, Refusal>
    ensures stand { Figures }
    ensures computed { result ≡ Accepted (record { halved = 6_600; floored = 2_400 }) }
{
    let mut large = opening(13_200)?;
    large.on_congestion_event(2, 1, false, 1_200);
    // Half of 8,000 is 4,000.
    let mut small = opening(8_000)?;
    small.on_congestion_event(2, 1, false, 1_200);
    small.on_congestion_event(4, 3, false, 1_200);
    Ok(Worked {
        halved: large.window(),
        floored: small.window(),
    })
}

/// The window after the first datagram of 1,200 bytes was sent and acknowledged: 12,000 and those.
// CUBIC has the same figure of its own: over any controller `exchange` states no number, since only a known one fixes it.
pub fn first_exchange(mtu: Mtu, rtt: &RttEstimator) -> u64
    ensures { result ≡ 13_200 }
{
    let mut controller = NewReno::new(NewRenoConfig::default(), 0, mtu);
    exchange(&mut controller, 1_000_000, 51_000_000, 1_200, 0, rtt)
}
