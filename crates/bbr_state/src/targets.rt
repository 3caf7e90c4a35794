// Windows in proportion to what the path holds.
ghost use Rattle.std.specs.Prelude.{◌≡◌};
ghost use Rattle.bbr_state.specs.Targets.{target, probe_target};

use crate::state::BbrState;
use numbers::{nearest, whole_part};
use std::num::f32_to_f64_with_nan;

const K_MODERATE_PROBE_RTT_MULTIPLIER: f32 = 0.75;

impl BbrState {
    /// The window that `gain` aims at: so many times the bandwidth-delay product.
    pub fn get_target_cwnd(&self, gain: f32) -> u64
        ensures { result ≡ target self.now gain }
    {
        let bw = self.max_bandwidth.get_estimate();
        let bdp = (self.flow.min_rtt / 1_000).saturating_mul(bw);
        let cwnd = whole_part(f32_to_f64_with_nan(gain) * nearest::<f64>(bdp) / 1_000_000.0);
        // The product is 0 before the first sample of the bandwidth.
        if cwnd == 0 {
            return self.limits.init_cwnd;
        }
        cwnd.max(self.limits.min_cwnd)
    }

    /// The window while the minimum RTT is measured.
    pub fn get_probe_rtt_cwnd(&self) -> u64
        ensures { result ≡ probe_target self.now }
    {
        self.get_target_cwnd(K_MODERATE_PROBE_RTT_MULTIPLIER)
    }
}
