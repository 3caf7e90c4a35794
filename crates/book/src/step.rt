// The steps of a list of calls, before they are made.
ghost use Rattle.std.specs.Prelude.{◌≡◌, false};
ghost use Rattle.book.specs.Settings.{unmade};

use crate::call::{Call, Event, Step};

impl Step {
    /// A call that was not made yet.
    pub fn new(call: Call) -> Step
        ensures { result ≡ unmade call }
    {
        Step {
            call,
            request: None,
            window: 0,
            pace: None,
            answer: None,
        }
    }

    /// A grant, its permit to go to the first place of the purse.
    pub fn grant(size: u16, time: u64) -> Step
        ensures { result ≡ unmade (Call.Grant size time 0) }
    {
        Step::new(Call::Grant {
            size,
            time,
            place: 0,
        })
    }

    /// A transmit of the permit in the first place of the purse.
    pub fn transmit() -> Step
        ensures { result ≡ unmade (Call.Transmit 0) }
    {
        Step::new(Call::Transmit { place: 0 })
    }

    /// A withdrawal of the permit in the first place of the purse.
    pub fn withdraw() -> Step
        ensures { result ≡ unmade (Call.Withdraw 0) }
    {
        Step::new(Call::Withdraw { place: 0 })
    }

    /// An ack with no delay, where the application is not the limit.
    pub fn ack(number: u64, time: u64) -> Step
        ensures { result ≡ unmade (Call.Tell (Event.Ack number 0 false time)) }
    {
        Step::new(Call::Tell(Event::Ack {
            number,
            delay: 0,
            app_limited: false,
            time,
        }))
    }

    /// An end of a batch of acks, where the application is not the limit.
    pub fn end(time: u64) -> Step
        ensures { result ≡ unmade (Call.Tell (Event.End false time)) }
    {
        Step::new(Call::Tell(Event::End {
            app_limited: false,
            time,
        }))
    }

    /// A loss without persistent congestion.
    pub fn lose(number: u64, time: u64) -> Step
        ensures { result ≡ unmade (Call.Tell (Event.Lose number false time)) }
    {
        Step::new(Call::Tell(Event::Lose {
            number,
            persistent: false,
            time,
        }))
    }
}
