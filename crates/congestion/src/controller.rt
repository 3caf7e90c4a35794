// What every congestion controller offers, and the laws that each proves.
ghost use Rattle.std.specs.Prelude.{◌≡◌, ℕ, ◌*◌, ◌≤◌, Bool, Option as Maybe};
ghost use Rattle.rtt.specs.Estimates.{Estimate, estimate_of};
ghost use Rattle.congestion.specs.Meaning.{told_sent, told_acked, told_end, told_lost, told_mtu};
ghost use Rattle.congestion.specs.Rules.{Rules};

use crate::metrics::ControllerMetrics;
use rtt::estimator::RttEstimator;
use values::mtu::Mtu;

/// A congestion controller. Times are nanoseconds, and sizes bytes.
///
/// Its contracts are exact about a known controller, whose `Model` and steps are at hand, and say of an
/// unknown one what the laws say: how its five numbers change, and how small its window may be.
pub trait Controller {
    /// The window is never less than so many datagrams of the MTU's size.
    const FLOOR: u64;

    ghost FLOOR: { ℕ };

    // The whole state as plain data, with no proof in it: two states are equal where their parts are.
    ghost Model: { Type 0 };

    ghost model: { Self → Model };

    ghost rules: { Rules Model };

    /// One or more packets were just sent.
    fn on_sent(&mut self, time: u64, bytes: u64, last_packet_number: u64)
        ensures { model self.new ≡ rules.sends (model self.old) time bytes last_packet_number };

    /// A packet's delivery was confirmed: `bytes` sent at `sent`.
    ///
    /// `app_limited` says whether the connection was blocked on the application's data before these
    /// acknowledgements came.
    fn on_ack(&mut self, time: u64, sent: u64, bytes: u64, app_limited: bool, rtt: &RttEstimator)
        ensures { model self.new ≡ rules.acks (model self.old) time sent bytes app_limited (estimate_of rtt.now) };

    /// Packets are acknowledged in batches, all with the same `time`: one of those batches has ended.
    // There is no body here for those who do nothing then: none would keep the rules of every controller.
    fn on_end_acks(
        &mut self,
        time: u64,
        in_flight: u64,
        app_limited: bool,
        largest_packet_num_acked: Option<u64>,
    )
        ensures { model self.new ≡ rules.ends (model self.old) time in_flight app_limited largest_packet_num_acked };

    /// Packets were deemed lost, the latest of them sent at `sent`.
    ///
    /// `is_persistent_congestion` says whether all packets sent within the persistent congestion period
    /// that ended with that one were lost.
    fn on_congestion_event(
        &mut self,
        time: u64,
        sent: u64,
        is_persistent_congestion: bool,
        lost_bytes: u64,
    )
        ensures { model self.new ≡ rules.loses (model self.old) time sent is_persistent_congestion lost_bytes };

    /// The known MTU of the path has changed.
    fn on_mtu_update(&mut self, new_mtu: Mtu)
        ensures { model self.new ≡ rules.resizes (model self.old) new_mtu.value };

    /// The bytes that may be in flight.
    fn window(&self) -> u64
        ensures { result ≡ (rules.meaning (model self.now)).window };

    /// What the controller has to say of itself, its window among it.
    fn metrics(&self) -> ControllerMetrics
        ensures { result ≡ rules.metrics (model self.now) };

    /// The window that the controller was configured to start from.
    fn initial_window(&self) -> u64
        ensures { result ≡ rules.initial (model self.now) };

    ghost small: { (1 ≤ FLOOR) × (FLOOR ≤ 4) };

    ghost wide: { (x : Self) → FLOOR * (rules.meaning (model x)).mtu ≤ (rules.meaning (model x)).window };

    ghost shows: { (x : Model) → (rules.metrics x).congestion_window ≡ (rules.meaning x).window };

    ghost sends: { (x : Model) (t n p : ℕ) → rules.meaning (rules.sends x t n p) ≡ told_sent (rules.meaning x) n };

    ghost acks: { (x : Model) (t s n : ℕ) (b : Bool) (e : Estimate) → rules.meaning (rules.acks x t s n b e) ≡ told_acked (rules.meaning x) n (rules.meaning (rules.acks x t s n b e)).window };

    ghost ends: { (x : Model) (t f : ℕ) (b : Bool) (p : Maybe ℕ) → rules.meaning (rules.ends x t f b p) ≡ told_end (rules.meaning x) (rules.meaning (rules.ends x t f b p)).window };

    ghost loses: { (x : Model) (t s : ℕ) (b : Bool) (n : ℕ) → rules.meaning (rules.loses x t s b n) ≡ told_lost (rules.meaning x) n (rules.meaning (rules.loses x t s b n)).window };

    ghost resizes: { (x : Model) (n : ℕ) → rules.meaning (rules.resizes x n) ≡ told_mtu (rules.meaning x) n (rules.meaning (rules.resizes x n)).window };
}
