// The pacing rate, the window, and whether the bandwidth still grows.
ghost use Rattle.std.specs.Prelude.{◌≡◌};
ghost use Rattle.bbr_state.specs.Rates.{paced, aim, sized, checked};

use crate::state::{AckBatch, BbrState, Mode};
use bandwidth::bw_estimation::bw_from_delta;
use numbers::{nearest, whole_part};
use std::num::f32_to_f64_with_nan;

// The growth in a round that keeps the startup going.
const K_STARTUP_GROWTH_TARGET: f32 = 1.25;

const K_ROUND_TRIPS_WITHOUT_GROWTH_BEFORE_EXITING_STARTUP: u64 = 3;

impl BbrState {
    /// The pacing rate: the bandwidth times the pacing gain.
    pub fn calculate_pacing_rate(&mut self)
        ensures { self.new ≡ paced self.old }
    {
        let bw = self.max_bandwidth.get_estimate();
        if bw == 0 {
            return;
        }
        let target_rate = whole_part(
            nearest::<f64>(bw) * f32_to_f64_with_nan(self.phase.pacing_gain),
        );
        if self.growth.is_at_full_bandwidth {
            self.flow.pacing_rate = target_rate;
            return;
        }
        // An initial window for each RTT, as soon as there is one.
        if self.flow.pacing_rate == 0 && self.flow.min_rtt != 0 {
            self.flow.pacing_rate = bw_from_delta(
                self.limits.init_cwnd,
                self.flow.min_rtt,
            ).unwrap_or(0);
            return;
        }
        // The rate does not fall during startup.
        if self.flow.pacing_rate < target_rate {
            self.flow.pacing_rate = target_rate;
        }
    }

    // The window to grow to: what acks were ahead of the bandwidth is added.
    fn target_window(&self, excess_acked: u64) -> u64
        ensures { result ≡ aim self.now excess_acked }
    {
        let target = self.get_target_cwnd(self.phase.cwnd_gain);
        if self.growth.is_at_full_bandwidth {
            target.saturating_add(self.ack_aggregation.max_ack_height.get())
        } else {
            target.saturating_add(excess_acked)
        }
    }

    /// The window, which grows by no more than what was acknowledged.
    pub fn calculate_cwnd(&mut self, batch: &AckBatch)
        ensures { self.new ≡ sized self.old batch.now.bytes_acked batch.now.excess_acked }
    {
        if self.phase.mode == Mode::ProbeRtt {
            return;
        }
        let target_window = self.target_window(batch.excess_acked);
        if self.growth.is_at_full_bandwidth {
            self.flow.cwnd = target_window.min(self.flow.cwnd.saturating_add(batch.bytes_acked));
        } else if self.phase.cwnd_gain < nearest::<f32>(target_window)
            || self.flow.acked_bytes < self.limits.init_cwnd
        {
            // The window does not fall during startup.
            self.flow.cwnd = self.flow.cwnd.saturating_add(batch.bytes_acked);
        }
        self.flow.cwnd = self.flow.cwnd.max(self.limits.min_cwnd);
    }

    /// Finds the full bandwidth where three rounds, or one in recovery, did not bring a quarter more.
    pub fn check_if_full_bw_reached(&mut self, app_limited: bool)
        ensures { self.new ≡ checked self.old app_limited }
    {
        if app_limited {
            return;
        }
        let target = whole_part(
            nearest::<f64>(self.growth.bw_at_last_round)
                * f32_to_f64_with_nan(K_STARTUP_GROWTH_TARGET),
        );
        let bw = self.max_bandwidth.get_estimate();
        if bw >= target {
            self.growth.bw_at_last_round = bw;
            self.growth.round_wo_bw_gain = 0;
            self.ack_aggregation.max_ack_height.reset();
            return;
        }
        self.growth.round_wo_bw_gain = self.growth.round_wo_bw_gain.saturating_add(1);
        if self.growth.round_wo_bw_gain >= K_ROUND_TRIPS_WITHOUT_GROWTH_BEFORE_EXITING_STARTUP
            || self.recovery.recovery_state.in_recovery()
        {
            self.growth.is_at_full_bandwidth = true;
        }
    }
}
