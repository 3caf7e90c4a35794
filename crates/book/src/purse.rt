// Permits in their places. They are linear, so each goes in and out whole.
ghost use Rattle.std.specs.Prelude.{◌≡◌, true, is_some, Some, None, slice_index_or, slice_set};
ghost use Rattle.book.specs.Settings.{has_room, without, presented as shown};

use cells::table::Label;
use path::permit::Permit;

// The permit at a place, by its number and size.
pub(crate) fn presented(purse: &[Option<Permit>], place: usize) -> Option<Label>
    ensures { result ≡ shown purse.now place }
{
    purse.get(place)?.as_ref().map(Permit::label)
}

pub(crate) fn room_at(purse: &[Option<Permit>], place: usize) -> bool
    ensures { result ≡ has_room purse.now place }
{
    place < purse.len() && purse[place].is_none()
}

pub(crate) fn put(purse: &mut [Option<Permit>], place: usize, permit: Permit)
    requires { has_room purse.old place ≡ true }
    ensures { purse.new ≡ slice_set purse.old place (Some permit) }
{
    // What was there is matched and not unwrapped: a permit cannot be dropped, and there is none.
    match purse[place].replace(permit) {
        None => {}
        Some(_) => unreachable(),
    }
}

pub(crate) fn take(purse: &mut [Option<Permit>], place: usize) -> Option<Permit>
    ensures permit { result ≡ slice_index_or purse.old place None }
    ensures purse { purse.new ≡ without purse.old place result }
    ensures room { is_some result ≡ true → has_room purse.new place ≡ true }
{
    // By `get_mut(place)?` the check finds no proof of what the purse holds then.
    if place >= purse.len() {
        return None;
    }
    purse[place].take()
}
