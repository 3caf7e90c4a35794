// Replays a log, line by line.
ghost use Rattle.std.specs.Prelude.{◌≡◌};
ghost use Rattle.rtt.specs.Estimates.{estimate_of};
ghost use Rattle.window_log.specs.Replays.{sampled, packets_after, flight_after};

use crate::event::read::event;
use crate::event::{Event, Fault};
use crate::tell::tell;
use congestion::controller::Controller;
use measurements::parts::is_skipped;
use refusals::Refusal;
use rtt::estimator::RttEstimator;
use std::error::Error;
use values::rtt::Rtt;

/// A log in replay through a controller.
// It has no `impl Model`: its value would name the controller's model, which a `Value` cannot yet.
#[derive(Clone, Copy, Drop)]
pub struct Session<C> {
    controller: C,
    estimator: RttEstimator,
    packets: u64,
    in_flight: u64,
}

/// Where a controller stands after an event.
#[derive(Clone, Copy)]
pub struct Standing {
    pub window: u64,
    /// None of a controller that has no threshold.
    pub threshold: Option<u64>,
}

/// Why a line that is not skipped came to nothing.
#[derive(Clone, Copy, Debug)]
pub enum StepError {
    Refused(Refusal),
    Unreadable(Fault),
}

impl Error for StepError {}

impl From<Refusal> for StepError {
    ghost use Rattle.std.specs.Prelude.{◌≡◌};
    ghost use Rattle.window_log.specs.declared.session.StepError.TheVariants.{Refused};

    ghost from_gives = { λ why error. error ≡ Refused why };

    fn from(refusal: Refusal) -> StepError {
        StepError::Refused(refusal)
    }
}

impl From<Fault> for StepError {
    ghost use Rattle.std.specs.Prelude.{◌≡◌};
    ghost use Rattle.window_log.specs.declared.session.StepError.TheVariants.{Unreadable};

    ghost from_gives = { λ why error. error ≡ Unreadable why };

    fn from(fault: Fault) -> StepError {
        StepError::Unreadable(fault)
    }
}

// An acknowledgement gives a sample of the round-trip time.
fn sample(estimator: &mut RttEstimator, event: Event)
    ensures { estimate_of estimator.new ≡ sampled (estimate_of estimator.old) event }
{
    if let Event::Acked(past) = event {
        let rtt = Rtt::clamped(past.time.saturating_sub(past.sent));
        let _ = estimator.update(0, rtt.get());
    }
}

fn packets_after(packets: u64, event: Event) -> u64
    ensures { result ≡ packets_after packets event }
{
    match event {
        Event::Sent { .. } => packets.saturating_add(1),
        _ => packets,
    }
}

fn flight_after(in_flight: u64, event: Event) -> u64
    ensures { result ≡ flight_after in_flight event }
{
    match event {
        Event::Sent { bytes, .. } => in_flight.saturating_add(bytes),
        Event::Acked(past) | Event::Lost(past) => in_flight.saturating_sub(past.bytes),
        Event::End { .. } | Event::Resized { .. } => in_flight,
    }
}

impl<C: Controller> Session<C> {
    ghost use Rattle.std.specs.Prelude.{◌≡◌};
    ghost use Rattle.window_log.specs.Sessions.{progress_of, started, standing, next, outcome, line_outcome, line_after};

    /// A session that has read nothing yet.
    pub fn new(controller: C, initial_rtt: Rtt) -> Session<C>
        ensures { progress_of C.model result ≡ started (C.model controller) initial_rtt.nanos }
    {
        Session {
            controller,
            estimator: RttEstimator::new(initial_rtt),
            packets: 0,
            in_flight: 0,
        }
    }

    fn standing(&self) -> Standing
        ensures { result ≡ standing C.rules (C.model self.now.controller) }
    {
        let metrics = self.controller.metrics();
        Standing {
            window: metrics.congestion_window,
            threshold: metrics.ssthresh,
        }
    }

    fn take(&mut self, event: Event) -> Result<Standing, Refusal>
        ensures value { result ≡ outcome C.rules (progress_of C.model self.old) event }
        ensures after { progress_of C.model self.new ≡ next C.rules (progress_of C.model self.old) event }
    {
        sample(&mut self.estimator, event);
        let answer = tell(
            &mut self.controller,
            event,
            self.packets,
            self.in_flight,
            &self.estimator,
        );
        self.packets = packets_after(self.packets, event);
        self.in_flight = flight_after(self.in_flight, event);
        answer.map(|()| self.standing())
    }

    /// Reads a line, its newline and carriage return taken off. A blank line and a comment come to nothing.
    pub fn step(&mut self, line: &[u8]) -> Result<Option<Standing>, StepError>
        ensures value { result ≡ line_outcome C.rules (progress_of C.model self.old) line.now }
        ensures after { progress_of C.model self.new ≡ line_after C.rules (progress_of C.model self.old) line.now }
    {
        if is_skipped(line) {
            return Ok(None);
        }
        let event = event(line)?;
        let standing = self.take(event)?;
        Ok(Some(standing))
    }
}
