// Calls above any controller, proved once from the trait's laws. They take times and sizes one by one, as the trait's calls
// do. `exchange` and `loss` differ by the second call, whose arguments and law are its own.
ghost use Rattle.std.specs.Prelude.{◌≡◌, ◌+◌, ◌*◌, ◌≤◌, false};
ghost use Rattle.rtt.specs.Estimates.{estimate_of};
ghost use Rattle.congestion.specs.Growth.{Delivered, Wasted};
ghost use Rattle.congestion.specs.Meaning.{told_mtu};

use crate::controller::Controller;
use rtt::estimator::RttEstimator;
use values::mtu::Mtu;

/// Tells of `bytes` sent at `sent` under `number` and acknowledged at `time`, and answers the window.
pub fn exchange<C: Controller>(
    controller: &mut C,
    sent: u64,
    time: u64,
    bytes: u64,
    number: u64,
    rtt: &RttEstimator,
) -> u64
    ensures state { C.model controller.new ≡ C.rules.acks (C.rules.sends (C.model controller.old) sent bytes number) time sent bytes false (estimate_of rtt.now) }
    ensures totals { Delivered bytes (C.rules.meaning (C.model controller.old)) (C.rules.meaning (C.model controller.new)) }
    ensures window { result ≡ (C.rules.meaning (C.model controller.new)).window }
    ensures floor { C.FLOOR * (C.rules.meaning (C.model controller.old)).mtu ≤ result }
{
    controller.on_sent(sent, bytes, number);
    controller.on_ack(time, sent, bytes, false, rtt);
    controller.window()
}

/// Tells of `bytes` sent at `sent` under `number` and found lost at `time`, and answers the window.
pub fn loss<C: Controller>(controller: &mut C, sent: u64, time: u64, bytes: u64, number: u64) -> u64
    ensures state { C.model controller.new ≡ C.rules.loses (C.rules.sends (C.model controller.old) sent bytes number) time sent false bytes }
    ensures totals { Wasted bytes (C.rules.meaning (C.model controller.old)) (C.rules.meaning (C.model controller.new)) }
    ensures window { result ≡ (C.rules.meaning (C.model controller.new)).window }
    ensures floor { C.FLOOR * (C.rules.meaning (C.model controller.old)).mtu ≤ result }
{
    controller.on_sent(sent, bytes, number);
    controller.on_congestion_event(time, sent, false, bytes);
    controller.window()
}

/// Tells of another MTU, and answers the bytes by which the window is above its floor then.
pub fn resize<C: Controller>(controller: &mut C, new_mtu: Mtu) -> u64
    ensures state { C.model controller.new ≡ C.rules.resizes (C.model controller.old) new_mtu.value }
    ensures meaning { C.rules.meaning (C.model controller.new) ≡ told_mtu (C.rules.meaning (C.model controller.old)) new_mtu.value (C.rules.meaning (C.model controller.new)).window }
    ensures above { C.FLOOR * new_mtu.value + result ≡ (C.rules.meaning (C.model controller.new)).window }
{
    controller.on_mtu_update(new_mtu);
    controller.window() - C::FLOOR * new_mtu.get() as u64
}
