// The curves of CUBIC, over bytes and seconds. Each takes what its equation names, so that it reads as the RFC's.
ghost use Rattle.std.specs.Prelude.{◌≡◌};
ghost use Rattle.cubic.specs.Curves.{peak, epoch_length, w_cubic, w_est, target as target_of, scaled_down, converged};

use crate::cubic::State;
use numbers::{cube, cube_root, nearest, seconds, whole_part};

const BETA_CUBIC: f64 = 0.7;

const C: f64 = 0.4;

// 0.7 of n, cut.
pub(super) fn scaled_down(n: u64) -> u64
    ensures { result ≡ scaled_down n }
{
    whole_part(nearest::<f64>(n) * BETA_CUBIC)
}

// The new `w_max` where a window is lost: fast convergence lowers it where the window had not come
// back to the old one.
pub(super) fn converged_max(w_max: f64, window: f64) -> f64
    ensures { result ≡ converged w_max window }
{
    if window < w_max {
        window * (1.0 + BETA_CUBIC) / 2.0
    } else {
        window
    }
}

impl State {
    // w_max in datagrams
    fn peak(&self, max_datagram_size: u16) -> f64
        ensures { result ≡ peak self.now max_datagram_size }
    {
        self.w_max / max_datagram_size as f64
    }

    // K = cbrt(w_max * (1 - beta_cubic) / C) (Eq. 2)
    pub(super) fn cubic_k(&self, max_datagram_size: u16) -> f64
        ensures { result ≡ epoch_length self.now max_datagram_size }
    {
        cube_root(self.peak(max_datagram_size) * (1.0 - BETA_CUBIC) / C)
    }

    // W_cubic(t) = C * (t - K)^3 + w_max (Eq. 1)
    fn w_cubic(&self, t: u64, max_datagram_size: u16) -> f64
        ensures { result ≡ w_cubic self.now t max_datagram_size }
    {
        let w_max = self.peak(max_datagram_size);
        (C * cube(seconds(t) - self.k) + w_max) * max_datagram_size as f64
    }

    // W_est(t) = w_max * beta_cubic + 3 * (1 - beta_cubic) / (1 + beta_cubic) * (t / RTT) (Eq. 4)
    fn w_est(&self, t: u64, rtt: u64, max_datagram_size: u16) -> f64
        ensures { result ≡ w_est self.now t rtt max_datagram_size }
    {
        let w_max = self.peak(max_datagram_size);
        (w_max * BETA_CUBIC
            + 3.0 * (1.0 - BETA_CUBIC) / (1.0 + BETA_CUBIC) * seconds(t) / seconds(rtt))
            * max_datagram_size as f64
    }

    // Where a window goes, t after the epoch began.
    pub(super) fn target(&self, window: u64, t: u64, rtt: u64, max_datagram_size: u16) -> u64
        ensures { result ≡ target_of self.now window t rtt max_datagram_size }
    {
        let w_cubic = self.w_cubic(t.saturating_add(rtt), max_datagram_size);
        let w_est = self.w_est(t, rtt, max_datagram_size);
        if w_cubic < w_est {
            // TCP friendly region
            window.max(whole_part(w_est))
        } else if window < whole_part(w_cubic) {
            // Concave region or convex region use same increment
            let size: f64 = nearest(window);
            let inc = (w_cubic - size) / size * max_datagram_size as f64;
            window.saturating_add(whole_part(inc))
        } else {
            window
        }
    }
}
