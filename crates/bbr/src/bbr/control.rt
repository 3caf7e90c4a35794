// The crate's `Bbr`, call by call.
ghost use Rattle.std.specs.Prelude.{◌≡◌};
ghost use Rattle.bbr.specs.Model.{BbrModel, bbr_model, bbr_rules, opened_with};
ghost use Rattle.bbr.specs.Keeps.{wide_enough};
ghost use Rattle.std.proofs.Common.{rules};

use crate::bbr::Bbr;
use crate::config::BbrConfig;
use bbr_calls::calls;
use bbr_state::state::BbrState;
use congestion::controller::Controller;
use congestion::metrics::ControllerMetrics;
use congestion::totals::Totals;
use draws::source::DrawSource;
use rtt::estimator::RttEstimator;
use values::mtu::Mtu;

impl<D: DrawSource> Bbr<D> {
    /// A controller that starts from `config`, with a source of draws.
    pub fn new(config: BbrConfig, current_mtu: Mtu, draws: D) -> Bbr<D>
        ensures { bbr_model D.model result ≡ opened_with config.initial_window.bytes current_mtu.value (D.model draws) }
    {
        Bbr {
            state: BbrState::new(config.initial_window(), current_mtu.get()),
            draws,
            totals: Totals::new(),
        }
    }

    /// All that the controller holds, but the source of draws: the state and the totals.
    pub fn parts(&self) -> (BbrState, Totals)
        ensures { result ≡ (self.now.state, self.now.totals) }
    {
        (self.state, self.totals)
    }
}

impl<D: DrawSource + Copy> Bbr<D> {
    /// The draw that the next start of the cycle takes.
    pub fn next_draw(&self) -> u8
        ensures { result ≡ D.next_draw (D.model self.now.draws) }
    {
        let mut draws = self.draws;
        draws.draw()
    }
}

impl<D: DrawSource> Controller for Bbr<D> {
    const FLOOR: u64 = 3;

    ghost FLOOR = { 3 };

    ghost Model = { BbrModel D.Model };

    ghost model = { bbr_model D.model };

    ghost rules = { bbr_rules D.next_draw D.after_draw };

    ghost small = { Prim.search rules };

    ghost wide = { λ x. wide_enough x.state x.limited x.wide x.held };

    ghost shows = { Prim.search rules };

    ghost sends = { Prim.search rules };

    ghost acks = { Prim.search rules };

    ghost ends = { Prim.search rules };

    ghost loses = { Prim.search rules };

    ghost resizes = { Prim.search rules };

    fn on_sent(&mut self, time: u64, bytes: u64, last_packet_number: u64) {
        self.totals.add_sent(bytes);
        calls::on_sent(&mut self.state, time, bytes, last_packet_number);
    }

    fn on_ack(&mut self, time: u64, sent: u64, bytes: u64, app_limited: bool, rtt: &RttEstimator) {
        self.totals.add_acked(bytes);
        calls::on_ack(&mut self.state, time, bytes, app_limited, rtt.min());
    }

    fn on_end_acks(
        &mut self,
        time: u64,
        in_flight: u64,
        app_limited: bool,
        largest_packet_num_acked: Option<u64>,
    ) {
        calls::on_end_acks(
            &mut self.state,
            time,
            in_flight,
            app_limited,
            largest_packet_num_acked,
            &mut self.draws,
        );
    }

    fn on_congestion_event(
        &mut self,
        time: u64,
        sent: u64,
        is_persistent_congestion: bool,
        lost_bytes: u64,
    ) {
        self.totals.add_lost(lost_bytes);
        calls::on_congestion_event(&mut self.state, lost_bytes);
    }

    fn on_mtu_update(&mut self, new_mtu: Mtu) {
        calls::on_mtu_update(&mut self.state, new_mtu.get());
    }

    fn window(&self) -> u64 {
        calls::window(&self.state)
    }

    fn metrics(&self) -> ControllerMetrics {
        ControllerMetrics {
            congestion_window: calls::window(&self.state),
            ssthresh: None,
            pacing_rate: Some(self.state.flow.pacing_rate.saturating_mul(8)),
        }
    }

    fn initial_window(&self) -> u64 {
        self.state.limits.initial_window
    }
}
