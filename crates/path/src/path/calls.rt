// The making of a path and its seven calls.
ghost use Rattle.std.specs.Prelude.{◌≡◌, IfOk};
ghost use Rattle.cells.specs.Tables.{is_held, IsHeld, landing, in_time};
ghost use Rattle.path.specs.Paths.{state_of, opened, grant_answer, grant_state, presented, transmit_state, withdrawn, answered, is_newest, sample, sampled, acknowledged, ended, lost, resized};

use crate::path::Path;
use crate::permit::Permit;
use cells::table::{Datagram, Label};
use cells::tracker::Tracker;
use congestion::controller::Controller;
use filter::min_max::MinMax;
use filter::rtt_sample::RttSample;
use pacing::pacer::Pacer;
use refusals::Refusal;
use rtt::estimator::RttEstimator;
use values::mtu::Mtu;
use values::opening::Opening;
use values::rtt::Rtt;

// The time since the grant, brought within the estimator's limits.
fn round_trip(datagram: Datagram, time: u64) -> RttSample
    ensures { result ≡ sample datagram time }
{
    RttSample {
        rtt: Rtt::clamped(time.saturating_sub(datagram.time)).get(),
        number: datagram.number,
    }
}

impl<C: Controller> Path<C> {
    /// A path that has handed out nothing. The controller is told the MTU first, and the pacer starts from its window then.
    pub fn new(controller: C, opening: Opening) -> Path<C>
        ensures { state_of C.model result ≡ opened C.rules (C.model controller) opening }
    {
        let mut controller = controller;
        controller.on_mtu_update(opening.mtu());
        let window = controller.window();
        Path {
            tracker: Tracker::new(&opening),
            controller,
            rtt: RttEstimator::new(opening.initial_rtt()),
            rtt_filter: MinMax::new(),
            pacer: Pacer::new(
                opening.initial_rtt().get(),
                window,
                opening.mtu(),
                opening.start(),
            ),
            largest_acked: None,
            round: 0,
        }
    }

    /// Grants a datagram of `size` bytes: its number is held, and the permit goes out. Refusals 2 to 8.
    pub fn grant(&mut self, size: u16, time: u64) -> Result<Permit, Refusal>
        ensures answer { result ≡ grant_answer C.rules (state_of C.model self.old) size time }
        ensures state { state_of C.model self.new ≡ grant_state C.rules (state_of C.model self.old) size time }
        ensures held { IfOk result (λ p. IsHeld self.new.tracker.table p.label) }
    {
        let window = self.controller.window();
        self.tracker.check(size, time, window)?;
        let mtu = self.tracker.table().mtu;
        let wait = self
            .pacer
            .delay(self.rtt.get(), size as u64, mtu, window, time)?;
        if let Some(ready) = wait {
            self.tracker.advance(time);
            return Err(Refusal::Paced(ready));
        }
        let number = self.tracker.hold(size, time, window)?;
        Ok(Permit {
            label: Label { number, size },
        })
    }

    /// Sends what was granted: the number is in flight, and the controller and the pacer are told. Refusal 9 hands the permit back.
    pub fn transmit(&mut self, permit: Permit) -> Result<(), Refusal<Permit>>
        ensures answer { result ≡ presented permit (is_held self.old.tracker.table permit.label) }
        ensures state { state_of C.model self.new ≡ transmit_state C.rules (state_of C.model self.old) permit.label }
    {
        let Some(datagram) = self.tracker.transmit(permit.label) else {
            return Err(Refusal::NotHeld(permit));
        };
        self.controller
            .on_sent(datagram.time, datagram.size as u64, datagram.number);
        self.pacer.on_transmit(datagram.size);
        permit.spend();
        Ok(())
    }

    /// Gives back what was granted: the number is withdrawn, and nobody is told. Refusal 9 hands the permit back.
    pub fn withdraw(&mut self, permit: Permit) -> Result<(), Refusal<Permit>>
        ensures answer { result ≡ presented permit (is_held self.old.tracker.table permit.label) }
        ensures state { state_of C.model self.new ≡ withdrawn (state_of C.model self.old) permit.label }
    {
        if self.tracker.withdraw(permit.label).is_none() {
            return Err(Refusal::NotHeld(permit));
        }
        permit.spend();
        Ok(())
    }

    fn is_newest(&self, number: u64) -> bool
        ensures { result ≡ is_newest self.now.largest_acked number }
    {
        self.largest_acked.is_none_or(|largest| largest < number)
    }

    // Only a number above all that were acknowledged before shows the present round trip.
    fn take_sample(&mut self, datagram: Datagram, delay: u64, time: u64)
        ensures { state_of C.model self.new ≡ sampled (state_of C.model self.old) datagram delay time }
    {
        if !self.is_newest(datagram.number) {
            return;
        }
        let sample = round_trip(datagram, time);
        self.rtt.update(delay, sample.rtt).unwrap();
        self.rtt_filter.update_max(self.round, sample);
        self.largest_acked = Some(datagram.number);
    }

    /// A number in flight was acknowledged, for which the peer reported `delay`. Refusals 3 and 10.
    pub fn ack(
        &mut self,
        number: u64,
        delay: u64,
        app_limited: bool,
        time: u64,
    ) -> Result<(), Refusal>
        ensures answer { result ≡ answered (landing self.old.tracker.table number time) }
        ensures state { state_of C.model self.new ≡ acknowledged C.rules (state_of C.model self.old) number delay app_limited time (landing self.old.tracker.table number time) }
    {
        let datagram = self.tracker.acknowledge(number, time)?;
        self.take_sample(datagram, delay, time);
        self.controller.on_ack(
            time,
            datagram.time,
            datagram.size as u64,
            app_limited,
            &self.rtt,
        );
        Ok(())
    }

    /// A batch of acks has ended. Refusal 3.
    pub fn end(&mut self, app_limited: bool, time: u64) -> Result<(), Refusal>
        ensures answer { result ≡ in_time self.old.tracker.table time }
        ensures state { state_of C.model self.new ≡ ended C.rules (state_of C.model self.old) app_limited time (in_time self.old.tracker.table time) }
    {
        self.tracker.check_time(time)?;
        self.tracker.advance(time);
        let in_flight = self.tracker.table().in_flight_bytes;
        self.controller
            .on_end_acks(time, in_flight, app_limited, self.largest_acked);
        self.round = self.round.saturating_add(1);
        Ok(())
    }

    /// A number in flight was lost. Refusals 3 and 10.
    pub fn lose(&mut self, number: u64, persistent: bool, time: u64) -> Result<(), Refusal>
        ensures answer { result ≡ answered (landing self.old.tracker.table number time) }
        ensures state { state_of C.model self.new ≡ lost C.rules (state_of C.model self.old) number persistent time (landing self.old.tracker.table number time) }
    {
        let datagram = self.tracker.lose(number, time)?;
        self.controller
            .on_congestion_event(time, datagram.time, persistent, datagram.size as u64);
        Ok(())
    }

    /// The MTU has changed.
    pub fn set_mtu(&mut self, mtu: Mtu)
        ensures { state_of C.model self.new ≡ resized C.rules (state_of C.model self.old) mtu }
    {
        self.tracker.set_mtu(mtu);
        self.controller.on_mtu_update(mtu);
    }
}
