// A call of a path as it is asked for, as it is made, and what came of it.
use cells::table::Label;
use refusals::Refusal;
use values::mtu::Mtu;

/// A call that presents no permit.
#[derive(Clone, Copy)]
pub enum Event {
    Ack {
        number: u64,
        delay: u64,
        app_limited: bool,
        time: u64,
    },
    End {
        app_limited: bool,
        time: u64,
    },
    Lose {
        number: u64,
        persistent: bool,
        time: u64,
    },
    SetMtu(Mtu),
}

/// A call as it is asked for: permits are kept in a purse and named by their place there.
#[derive(Clone, Copy)]
pub enum Call {
    /// The permit goes to this place.
    Grant { size: u16, time: u64, place: usize },
    Transmit { place: usize },
    Withdraw { place: usize },
    Tell(Event),
}

/// A call as it is made.
#[derive(Clone, Copy)]
pub enum Request {
    Grant { size: u16, time: u64 },
    Transmit(Label),
    Withdraw(Label),
    Tell(Event),
}

/// What a call that was not refused gives.
#[derive(Clone, Copy)]
pub enum Accepted {
    /// A permit went out.
    Granted(Label),
    Done,
}

/// Refusal 9 says which permit came back.
pub type Answer = Result<Accepted, Refusal<Label>>;

/// A call, with the window and the pacer's answer that it met, and its own answer.
#[derive(Clone, Copy)]
pub struct Step {
    pub call: Call,
    /// None is made where the purse has no permit at that place, or no room for one.
    pub request: Option<Request>,
    pub window: u64,
    pub pace: Option<u64>,
    pub answer: Option<Answer>,
}
