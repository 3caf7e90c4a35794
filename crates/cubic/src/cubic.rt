// The crate's `Cubic`, call by call.
ghost use Rattle.std.specs.Prelude.{◌≡◌};

use crate::config::CubicConfig;
use crate::cubic::curves::{converged_max, scaled_down};
use congestion::congestion_window::CongestionWindow;
use congestion::controller::Controller;
use congestion::metrics::ControllerMetrics;
use congestion::totals::Totals;
use numbers::nearest;
use rtt::estimator::RttEstimator;
use values::mtu::Mtu;

mod curves;

/// The state of the curves that the window follows. `k` and `w_max` are the RFC's, in seconds and bytes.
#[derive(Clone, Copy)]
pub struct State {
    pub k: f64,
    pub w_max: f64,
    // Increments of the window in congestion avoidance that do not make a datagram yet.
    pub cwnd_inc: u64,
}

/// The RFC 8312 congestion controller, as widely used for TCP.
#[derive(Clone, Copy)]
pub struct Cubic {
    config: CubicConfig,
    cwnd: CongestionWindow,
    // The time when the epoch of the curves began, which is when a loss was last found. When a packet
    // sent after this time is acknowledged, recovery is over.
    recovery_start_time: Option<u64>,
    cubic_state: State,
    totals: Totals,
}

impl Cubic {
    ghost use Rattle.std.specs.Option.{unwrap_or};
    ghost use Rattle.cubic.specs.Steps.{cubic_model, opened, is_old, begun, advanced, reduced, collapsed};

    /// A controller that starts from `config`. `time` is not read: the first epoch begins later.
    pub fn new(config: CubicConfig, time: u64, current_mtu: Mtu) -> Cubic
        ensures { cubic_model result ≡ opened config.initial_window.bytes current_mtu.value }
    {
        Cubic {
            config,
            cwnd: CongestionWindow::new(config.initial_window, current_mtu),
            recovery_start_time: None,
            cubic_state: State {
                k: 0.0,
                w_max: 0.0,
                cwnd_inc: 0,
            },
            totals: Totals::new(),
        }
    }

    /// The window, the threshold, the start of the epoch, the state of the curves, and the MTU.
    pub fn parts(&self) -> (u64, u64, Option<u64>, State, Mtu)
        ensures { result ≡ (self.now.cwnd.window, self.now.cwnd.ssthresh, self.now.recovery_start_time, self.now.cubic_state, self.now.cwnd.current_mtu) }
    {
        (
            self.cwnd.window,
            self.cwnd.ssthresh,
            self.recovery_start_time,
            self.cubic_state,
            self.cwnd.current_mtu,
        )
    }

    // Whether a packet sent then left before the epoch.
    fn is_before_epoch(&self, sent: u64) -> bool
        ensures { result ≡ is_old self.now.recovery_start_time sent }
    {
        self.recovery_start_time.is_some_and(|start| sent <= start)
    }

    // The start of the epoch, which begins here where no loss came before.
    fn begin_epoch(&mut self, time: u64) -> u64
        ensures state { cubic_model self.new ≡ begun (cubic_model self.old) time }
        ensures start { result ≡ unwrap_or self.old.recovery_start_time time }
    {
        if self.recovery_start_time.is_none() {
            self.cubic_state.w_max = nearest(self.cwnd.window);
            self.cubic_state.k = 0.0;
        }
        *self.recovery_start_time.get_or_insert(time)
    }

    // An acknowledgement in congestion avoidance, t after the epoch began.
    fn advance(&mut self, t: u64, rtt: u64)
        ensures { cubic_model self.new ≡ advanced (cubic_model self.old) t rtt }
    {
        let size = self.cwnd.current_mtu.get();
        let target = self.cubic_state.target(self.cwnd.window, t, rtt, size);
        self.cubic_state.cwnd_inc = self
            .cubic_state
            .cwnd_inc
            .saturating_add(target.saturating_sub(self.cwnd.window));
        // The increments can be more than a datagram late in an epoch, but RFC 9002, section 7.3.3,
        // limits the increase to one datagram for each window acknowledged.
        if self.cubic_state.cwnd_inc >= size as u64 {
            self.cwnd.grow(size as u64);
            self.cubic_state.cwnd_inc = 0;
        }
    }

    fn reduce(&mut self, time: u64)
        ensures { cubic_model self.new ≡ reduced (cubic_model self.old) time }
    {
        let window = self.cwnd.window;
        self.recovery_start_time = Some(time);
        self.cubic_state.w_max = converged_max(self.cubic_state.w_max, nearest(window));
        self.cwnd.reduce(scaled_down(window));
        self.cubic_state.k = self.cubic_state.cubic_k(self.cwnd.current_mtu.get());
        self.cubic_state.cwnd_inc = scaled_down(self.cubic_state.cwnd_inc);
    }

    fn collapse(&mut self)
        ensures { cubic_model self.new ≡ collapsed (cubic_model self.old) }
    {
        let window = self.cwnd.window;
        self.recovery_start_time = None;
        self.cubic_state.w_max = nearest(window);
        self.cwnd.reduce(scaled_down(window));
        self.cwnd.collapse();
        self.cubic_state.cwnd_inc = 0;
    }
}

// The trait has these as calls of each controller; NewReno has the like of those that are one line. Contracts read the controller by
// `cubic_model`, since the law of the window speaks of the controller itself and an `impl Model` would hide it.
impl Controller for Cubic {
    ghost use Rattle.cubic.specs.Steps.{CubicModel, cubic_model, cubic_rules};
    ghost use Rattle.std.proofs.Common.{rules};

    const FLOOR: u64 = 2;

    ghost FLOOR = { 2 };

    ghost Model = { CubicModel };

    ghost model = { cubic_model };

    ghost rules = { cubic_rules };

    ghost small = { Prim.search rules };

    ghost wide = { Prim.search rules };

    ghost shows = { Prim.search rules };

    ghost sends = { Prim.search rules };

    ghost acks = { Prim.search rules };

    ghost ends = { Prim.search rules };

    ghost loses = { Prim.search rules };

    ghost resizes = { Prim.search rules };

    fn on_sent(&mut self, time: u64, bytes: u64, last_packet_number: u64) {
        self.totals.add_sent(bytes);
    }

    fn on_ack(&mut self, time: u64, sent: u64, bytes: u64, app_limited: bool, rtt: &RttEstimator) {
        self.totals.add_acked(bytes);
        if app_limited || self.is_before_epoch(sent) {
            return;
        }
        if self.cwnd.window < self.cwnd.ssthresh {
            // Slow start
            self.cwnd.grow(bytes);
        } else {
            // Congestion avoidance
            let start = self.begin_epoch(time);
            self.advance(time.saturating_sub(start), rtt.get());
        }
    }

    fn on_end_acks(
        &mut self,
        time: u64,
        in_flight: u64,
        app_limited: bool,
        largest_packet_num_acked: Option<u64>,
    ) {}

    fn on_congestion_event(
        &mut self,
        time: u64,
        sent: u64,
        is_persistent_congestion: bool,
        lost_bytes: u64,
    ) {
        self.totals.add_lost(lost_bytes);
        if self.is_before_epoch(sent) {
            return;
        }
        self.reduce(time);
        if is_persistent_congestion {
            self.collapse();
        }
    }

    fn on_mtu_update(&mut self, new_mtu: Mtu) {
        self.cwnd.on_mtu_update(new_mtu);
    }

    fn window(&self) -> u64 {
        self.cwnd.window
    }

    fn metrics(&self) -> ControllerMetrics {
        self.cwnd.metrics()
    }

    fn initial_window(&self) -> u64 {
        self.config.initial_window()
    }
}
