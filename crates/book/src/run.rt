// Calls on a path, one and many, and what stands after them.
ghost use Rattle.std.specs.Prelude.{◌≡◌, ℕ, ◌≤◌, true, List, [], ◌∷◌, ◌++◌, length, take, None, Some, slice_index_or};
ghost use Rattle.congestion.specs.Meaning.{Meaning};
ghost use Rattle.path.specs.Paths.{state_of};
ghost use Rattle.book.specs.Book.{Book, opened, widened as refused, said as verdict};
ghost use Rattle.book.specs.Requests.{pace_for, event_answer, event_after};
ghost use Rattle.book.specs.Settings.{Backed, request_of, setting_of, begun, Performed, noted, next, last, log, has_room, settled, restored};
ghost use Rattle.book.specs.Theorem.{Modest, Stands};

use crate::call::{Accepted, Answer, Call, Event, Request, Step};
use crate::purse::{presented, put, room_at, take};
use cells::table::Label;
use congestion::controller::Controller;
use path::path::Path;
use path::permit::Permit;
use refusals::Refusal;
use values::opening::Opening;

// The call as it is made.
fn request(purse: &[Option<Permit>], call: Call) -> Option<Request>
    ensures { result ≡ request_of purse.now call }
{
    match call {
        Call::Grant { size, time, place } => {
            room_at(purse, place).then_some(Request::Grant { size, time })
        }
        Call::Transmit { place } => presented(purse, place).map(Request::Transmit),
        Call::Withdraw { place } => presented(purse, place).map(Request::Withdraw),
        Call::Tell(event) => Some(Request::Tell(event)),
    }
}

// What the pacer would answer to a grant; other requests do not ask it.
fn pace<C: Controller>(path: &Path<C>, request: Option<Request>) -> Option<u64>
    ensures { result ≡ pace_for C.rules (state_of C.model path.now) request }
{
    match request? {
        Request::Grant { size, time } => path.pacing(size, time),
        Request::Transmit(_) | Request::Withdraw(_) | Request::Tell(_) => None,
    }
}

// A call that presents no permit is never refused 9, so its refusals are among those of any call. It is no `From`: both types are of
// other crates.
fn widened(refusal: Refusal) -> Refusal<Label>
    ensures { result ≡ refused refusal }
{
    match refusal {
        Refusal::OutsideLimit(layer) => Refusal::OutsideLimit(layer),
        Refusal::Size => Refusal::Size,
        Refusal::Time => Refusal::Time,
        Refusal::Held => Refusal::Held,
        Refusal::NumbersExhausted => Refusal::NumbersExhausted,
        Refusal::CellTaken => Refusal::CellTaken,
        Refusal::Window => Refusal::Window,
        Refusal::Paced(time) => Refusal::Paced(time),
        Refusal::NotHeld(none) => match none {},
        Refusal::NotInFlight => Refusal::NotInFlight,
        Refusal::Malformed => Refusal::Malformed,
        Refusal::UnknownKind => Refusal::UnknownKind,
    }
}

fn said(answer: Result<(), Refusal>) -> Answer
    ensures { result ≡ verdict answer }
{
    answer.map(|()| Accepted::Done).map_err(widened)
}

fn tell<C: Controller>(path: &mut Path<C>, event: Event) -> Result<(), Refusal>
    ensures answer { result ≡ event_answer (state_of C.model path.old) event }
    ensures state { state_of C.model path.new ≡ event_after C.rules (state_of C.model path.old) event }
{
    match event {
        Event::Ack {
            number,
            delay,
            app_limited,
            time,
        } => path.ack(number, delay, app_limited, time),
        Event::End { app_limited, time } => path.end(app_limited, time),
        Event::Lose {
            number,
            persistent,
            time,
        } => path.lose(number, persistent, time),
        Event::SetMtu(mtu) => {
            path.set_mtu(mtu);
            Ok(())
        }
    }
}

// Path and purse stay two arguments, as callers have them: a struct of the two loans would be made and taken apart at each call.
fn grant<C: Controller>(
    path: &mut Path<C>,
    purse: &mut [Option<Permit>],
    size: u16,
    time: u64,
    place: usize,
) -> Option<Answer>
    ensures { Performed C.rules (setting_of C.model path.old purse.old) (Call.Grant size time place) result (setting_of C.model path.new purse.new) }
{
    if !room_at(purse, place) {
        return None;
    }
    match path.grant(size, time) {
        Ok(permit) => {
            let granted = permit.label();
            put(purse, place, permit);
            Some(Ok(Accepted::Granted(granted)))
        }
        Err(refusal) => Some(Err(widened(refusal))),
    }
}

// What became of a permit that was taken from its place: where it comes back, it goes there again.
fn settle(
    purse: &mut [Option<Permit>],
    place: usize,
    presented: Label,
    answer: Result<(), Refusal<Permit>>,
) -> Answer
    requires { has_room purse.old place ≡ true }
    ensures answer { result ≡ settled presented answer }
    ensures purse { purse.new ≡ restored purse.old place answer }
{
    let Err(refusal) = answer else {
        return Ok(Accepted::Done);
    };
    if let Some(permit) = refusal.into_permit() {
        put(purse, place, permit);
    }
    Err(Refusal::NotHeld(presented))
}

// `withdraw` differs by the path's call alone. One function over that call would know what it does only by `F.post` on two loans of the
// path, which takes more lines to say and to prove than these four.
fn transmit<C: Controller>(
    path: &mut Path<C>,
    purse: &mut [Option<Permit>],
    place: usize,
) -> Option<Answer>
    ensures { Performed C.rules (setting_of C.model path.old purse.old) (Call.Transmit place) result (setting_of C.model path.new purse.new) }
{
    let permit = take(purse, place)?;
    let presented = permit.label();
    let answer = path.transmit(permit);
    Some(settle(purse, place, presented, answer))
}

fn withdraw<C: Controller>(
    path: &mut Path<C>,
    purse: &mut [Option<Permit>],
    place: usize,
) -> Option<Answer>
    ensures { Performed C.rules (setting_of C.model path.old purse.old) (Call.Withdraw place) result (setting_of C.model path.new purse.new) }
{
    let permit = take(purse, place)?;
    let presented = permit.label();
    let answer = path.withdraw(permit);
    Some(settle(purse, place, presented, answer))
}

fn perform<C: Controller>(
    path: &mut Path<C>,
    purse: &mut [Option<Permit>],
    call: Call,
) -> Option<Answer>
    ensures { Performed C.rules (setting_of C.model path.old purse.old) call result (setting_of C.model path.new purse.new) }
{
    match call {
        Call::Grant { size, time, place } => grant(path, purse, size, time, place),
        Call::Transmit { place } => transmit(path, purse, place),
        Call::Withdraw { place } => withdraw(path, purse, place),
        Call::Tell(event) => Some(said(tell(path, event))),
    }
}

/// Makes one call, and notes the window and the pacer's answer that it met and its own answer.
///
/// Whatever list of calls led to this path from one begun afresh: what stands after that list stands with this call added.
pub fn call<C: Controller>(path: &mut Path<C>, purse: &mut [Option<Permit>], call: Call) -> Step
    ensures step { result ≡ noted C.rules (setting_of C.model path.old purse.old) call }
    ensures setting { setting_of C.model path.new purse.new ≡ next C.rules (setting_of C.model path.old purse.old) call }
    ensures stands { (k : Book) (m : Meaning) (steps : List Step) → Modest m → Stands C.rules.meaning C.FLOOR k m steps (state_of C.model path.old) → Stands C.rules.meaning C.FLOOR k m (steps ++ result ∷ []) (state_of C.model path.new) }
    ensures backed { length purse.old ≡ 1 → Backed path.old.tracker.table purse.old → Backed path.new.tracker.table purse.new }
{
    let request = request(purse, call);
    let window = path.window();
    let pace = pace(path, request);
    let answer = perform(path, purse, call);
    Step {
        call,
        request,
        window,
        pace,
        answer,
    }
}

/// Begins a path afresh and makes a list of calls on it, own and foreign permits in the purse, and notes each.
///
/// After each of them stands what the book says: see `specs/Theorem.antt`.
pub fn run<C: Controller>(
    controller: C,
    opening: Opening,
    steps: &mut [Step],
    purse: &mut [Option<Permit>],
) -> Path<C>
    ensures log { steps.new ≡ log C.rules (begun C.rules (C.model controller) opening purse.old) steps.old }
    ensures last { setting_of C.model result purse.new ≡ last C.rules (begun C.rules (C.model controller) opening purse.old) steps.old }
    ensures stands { Modest (C.rules.meaning (C.model controller)) → (i : ℕ) → i ≤ length steps.old → Stands C.rules.meaning C.FLOOR (opened opening) (C.rules.meaning (C.model controller)) (take i steps.new) (last C.rules (begun C.rules (C.model controller) opening purse.old) (take i steps.old)).path }
    ensures backed { length purse.old ≡ 1 → slice_index_or purse.old 0 None ≡ None → Backed result.tracker.table purse.new }
{
    let mut path = Path::new(controller, opening);
    for step in steps.iter_mut() {
        *step = call(&mut path, purse, step.call);
    }
    path
}
