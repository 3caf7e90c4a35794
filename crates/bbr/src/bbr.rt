ghost use Rattle.std.specs.Prelude.{◌≡◌, ◌≤◌};
ghost use Rattle.bbr.specs.Sound.{Limited, Held};

use bbr_state::state::BbrState;
use congestion::totals::Totals;
use std::alloc::AllocError;

pub mod control;

/// Aims for reduced buffer bloat and improved performance over high bandwidth-delay product networks, after
/// draft-cardwell-iccrg-bbr-congestion-control. `D` draws where the cycle of gains starts.
pub struct Bbr<D> {
    state: BbrState,
    draws: D,
    totals: Totals,
    ghost limited: { Limited state.limits },
    ghost wide: { state.limits.min_cwnd ≤ state.flow.cwnd },
    ghost held: { Held state.recovery },
}

// Not derived: a derived clone promises of its source of draws no more than the source's own clone does, and this one is the same value.
impl<D: Copy> Copy for Bbr<D> {}

impl<D: Copy> Clone for Bbr<D> {
    ghost is_clone = { λ x y. y ≡ x };

    ghost is_infallible = { λ _. Unit {0} };

    fn clone(&self) -> Result<Bbr<D>, AllocError> {
        Ok(*self)
    }
}
