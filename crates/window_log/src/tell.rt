// Tells any controller what a line of a log says.
ghost use Rattle.std.specs.Prelude.{◌≡◌};
ghost use Rattle.rtt.specs.Estimates.{estimate_of};
ghost use Rattle.values.specs.Limits.{InMtu};
ghost use Rattle.values.specs.Makers.{Made};
ghost use Rattle.window_log.specs.Replays.{told, answer};

use crate::event::Event;
use congestion::controller::Controller;
use refusals::{Layer, Refusal};
use rtt::estimator::RttEstimator;
use values::mtu::Mtu;

fn mtu(size: u64) -> Result<Mtu, Refusal>
    ensures { Made (InMtu size) (λ m. m.value ≡ size) result }
{
    let size = u16::try_from(size).map_err(|_| Refusal::OutsideLimit(Layer::Value))?;
    Mtu::new(size)
}

/// Tells `controller` of an event. `number` is that of the next packet. What the session knows comes one by one, since the session
/// holds the controller too.
pub fn tell<C: Controller>(
    controller: &mut C,
    event: Event,
    number: u64,
    in_flight: u64,
    rtt: &RttEstimator,
) -> Result<(), Refusal>
    ensures answer { result ≡ answer event }
    ensures state { C.model controller.new ≡ told C.rules (C.model controller.old) event number in_flight (estimate_of rtt.now) }
{
    match event {
        Event::Sent { bytes, time } => controller.on_sent(time, bytes, number),
        Event::Acked(past) => {
            controller.on_ack(past.time, past.sent, past.bytes, past.flagged, rtt)
        }
        Event::Lost(past) => {
            controller.on_congestion_event(past.time, past.sent, past.flagged, past.bytes)
        }
        Event::End { time } => controller.on_end_acks(time, in_flight, false, None),
        Event::Resized { size } => controller.on_mtu_update(mtu(size)?),
    }
    Ok(())
}
