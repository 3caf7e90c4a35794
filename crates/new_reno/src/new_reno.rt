// The crate's `NewReno`, call by call.
ghost use Rattle.std.specs.Prelude.{◌≡◌};

use crate::config::NewRenoConfig;
use congestion::congestion_window::CongestionWindow;
use congestion::controller::Controller;
use congestion::metrics::ControllerMetrics;
use congestion::totals::Totals;
use numbers::{nearest, whole_part};
use rtt::estimator::RttEstimator;
use values::mtu::Mtu;

/// A simple, standard congestion controller.
#[derive(Clone, Copy)]
pub struct NewReno {
    config: NewRenoConfig,
    cwnd: CongestionWindow,
    // The time when a loss was last found, or of the making. When a packet sent after this time is
    // acknowledged, recovery is over.
    recovery_start_time: u64,
    // Bytes acknowledged since slow start ended that did not make the window grow yet.
    bytes_acked: u64,
    totals: Totals,
}

impl NewReno {
    ghost use Rattle.new_reno.specs.Steps.{reno_model, opened};

    /// A controller that starts from `config` at `time`.
    pub fn new(config: NewRenoConfig, time: u64, current_mtu: Mtu) -> NewReno
        ensures { reno_model result ≡ opened config.initial_window.bytes config.loss_reduction_factor time current_mtu.value }
    {
        NewReno {
            config,
            cwnd: CongestionWindow::new(config.initial_window, current_mtu),
            recovery_start_time: time,
            bytes_acked: 0,
            totals: Totals::new(),
        }
    }

    /// The configuration, the MTU, the window, the threshold, the start of recovery, and the bytes
    /// acknowledged that did not make the window grow yet.
    pub fn parts(&self) -> (NewRenoConfig, Mtu, u64, u64, u64, u64)
        ensures { result ≡ (self.now.config, self.now.cwnd.current_mtu, self.now.cwnd.window, self.now.cwnd.ssthresh, self.now.recovery_start_time, self.now.bytes_acked) }
    {
        (
            self.config,
            self.cwnd.current_mtu,
            self.cwnd.window,
            self.cwnd.ssthresh,
            self.recovery_start_time,
            self.bytes_acked,
        )
    }
}

// The trait has these as calls of each controller; CUBIC has the like of those that are one line. Contracts read the controller by
// `reno_model`, since the law of the window speaks of the controller itself and an `impl Model` would hide it.
impl Controller for NewReno {
    ghost use Rattle.rtt.specs.Estimates.{estimate_of};
    ghost use Rattle.new_reno.specs.Steps.{RenoModel, reno_model, reno_rules, reno_ack, CountsBytes};
    ghost use Rattle.std.proofs.Common.{rules};

    const FLOOR: u64 = 2;

    ghost FLOOR = { 2 };

    ghost Model = { RenoModel };

    ghost model = { reno_model };

    ghost rules = { reno_rules };

    ghost small = { Prim.search rules };

    ghost wide = { Prim.search rules };

    ghost shows = { Prim.search rules };

    ghost sends = { Prim.search rules };

    ghost acks = { Prim.search rules };

    ghost ends = { Prim.search rules };

    ghost loses = { Prim.search rules };

    ghost resizes = { Prim.search rules };

    fn on_sent(&mut self, time: u64, bytes: u64, last_packet_number: u64) {
        self.totals.add_sent(bytes);
    }

    fn on_ack(&mut self, time: u64, sent: u64, bytes: u64, app_limited: bool, rtt: &RttEstimator)
        ensures step { reno_model self.new ≡ reno_ack (reno_model self.old) time sent bytes app_limited (estimate_of rtt.now) }
        ensures counts { CountsBytes (reno_model self.old) sent bytes app_limited (reno_model self.new) }
    {
        self.totals.add_acked(bytes);
        if app_limited || sent <= self.recovery_start_time {
            return;
        }
        if self.cwnd.window < self.cwnd.ssthresh {
            // Slow start
            self.cwnd.grow(bytes);
            if self.cwnd.window >= self.cwnd.ssthresh {
                // Exiting slow start: the bytes over the threshold count for congestion avoidance already.
                self.bytes_acked = self.cwnd.window - self.cwnd.ssthresh;
            }
        } else {
            // Congestion avoidance, by counting bytes (RFC 3465)
            self.bytes_acked = self.bytes_acked.saturating_add(bytes);
            if self.bytes_acked >= self.cwnd.window {
                self.bytes_acked -= self.cwnd.window;
                let size = self.cwnd.current_mtu.get() as u64;
                self.cwnd.grow(size);
            }
        }
    }

    fn on_end_acks(
        &mut self,
        time: u64,
        in_flight: u64,
        app_limited: bool,
        largest_packet_num_acked: Option<u64>,
    ) {}

    fn on_congestion_event(
        &mut self,
        time: u64,
        sent: u64,
        is_persistent_congestion: bool,
        lost_bytes: u64,
    ) {
        self.totals.add_lost(lost_bytes);
        if sent <= self.recovery_start_time {
            return;
        }
        let reduced = nearest::<f32>(self.cwnd.window) * self.config.loss_reduction_factor();
        self.recovery_start_time = time;
        self.cwnd.reduce(whole_part(reduced));
        if is_persistent_congestion {
            self.cwnd.collapse();
        }
    }

    fn on_mtu_update(&mut self, new_mtu: Mtu) {
        self.cwnd.on_mtu_update(new_mtu);
    }

    fn window(&self) -> u64 {
        self.cwnd.window
    }

    fn metrics(&self) -> ControllerMetrics {
        self.cwnd.metrics()
    }

    fn initial_window(&self) -> u64 {
        self.config.initial_window()
    }
}
