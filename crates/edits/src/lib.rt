// Edits of a drawing: what one makes of the pins, the edit that takes it back, and whether one can be made or could have been.
#![tactic(auto)]

pub mod stated;

ghost use Rattle.std.specs.Prelude.{◌≡◌, Some};
ghost use Rattle.edits.specs.Edits.{moved_pin, pin_made, pin_unmade, made, unmade, found_as, proper};
ghost use Rattle.edits.specs.Changes.{pin_of, reversed, fits, pin_fits, makeable_at, takeable_at};

use board::{PINS, Place, Spot, spots};
use drawing::{Held, Pin};

// An edit of a drawing, with what is needed to take it back. Its pin number takes a byte: the journal holds 256 edits.
#[derive(Clone, Copy, PartialEq, Eq)]
pub enum Edit {
    Placed(u8, Held),
    Moved(u8, Place, Place),
    Removed(u8, Held),
}

// The number of the pin that an edit names.
pub fn pin_of(edit: Edit) -> usize
    ensures { result ≡ pin_of edit }
{
    match edit {
        Edit::Placed(number, _) | Edit::Moved(number, _, _) | Edit::Removed(number, _) => {
            usize::from(number)
        }
    }
}

// The edit that takes an edit back.
pub fn reversed(edit: Edit) -> Edit
    ensures { result ≡ reversed edit }
{
    match edit {
        Edit::Placed(number, held) => Edit::Removed(number, held),
        Edit::Moved(number, from, to) => Edit::Moved(number, to, from),
        Edit::Removed(number, held) => Edit::Placed(number, held),
    }
}

// The pin at another place, where it is there: it keeps its net and its part number.
#[tactic(auto, unfolding(crate::specs::Edits::moved_pin))]
fn moved_pin(pin: Pin, to: Place) -> Pin
    ensures { result ≡ moved_pin pin to }
{
    pin.map(|held| Held { place: to, ..held })
}

// The pin that an edit names, with the edit made.
#[tactic(auto, using(crate::proofs::Changing::placed_pin, crate::proofs::Changing::moved_to, crate::proofs::Changing::removed_pin))]
pub fn pin_made(edit: Edit, pin: Pin) -> Pin
    ensures { result ≡ pin_made edit (pin_of edit) pin }
{
    match edit {
        Edit::Placed(_, held) => Some(held),
        Edit::Moved(_, _, to) => moved_pin(pin, to),
        Edit::Removed(_, _) => None,
    }
}

// The pin that an edit names, with the edit taken back.
// What takes an edit back is what makes the reversed one: so here, in take_back and in can_take_back. Of the edits that stand the test for 28 asks
// can_take_back and pin_unmade, where it asks can_make and pin_made of those taken back (tried).
#[tactic(auto, using(crate::proofs::Reversing::reversed_pin, crate::proofs::Reversing::reversed_pin_made))]
pub fn pin_unmade(edit: Edit, pin: Pin) -> Pin
    ensures { result ≡ pin_unmade edit (pin_of edit) pin }
{
    pin_made(reversed(edit), pin)
}

// Makes an edit of the pins.
pub fn make(pins: &mut [Pin; PINS], edit: Edit)
    ensures { pins.new ≡ made pins.old edit }
{
    let number = pin_of(edit);
    if number < PINS {
        pins[number] = pin_made(edit, pins[number]);
    }
}

// Takes an edit of the pins back.
#[tactic(auto, using(crate::proofs::Reversing::reversed_made))]
pub fn take_back(pins: &mut [Pin; PINS], edit: Edit)
    ensures { pins.new ≡ unmade pins.old edit }
{
    make(pins, reversed(edit));
}

// Whether an edit names a pin up to 31, and a move goes to another place.
fn is_proper(edit: Edit) -> bool
    ensures { result ≡ proper edit }
{
    pin_of(edit) < PINS
        && match edit {
            Edit::Moved(_, from, to) => from != to,
            _ => true,
        }
}

// Whether the pin that an edit names is as the edit finds it.
fn is_found(edit: Edit, pin: Pin) -> bool
    ensures { result ≡ found_as edit (pin_of edit) pin }
{
    match edit {
        Edit::Placed(_, _) => pin.is_none(),
        Edit::Moved(_, from, _) => drawing::stands_at(pin, from),
        Edit::Removed(_, held) => pin == Some(held),
    }
}

// Whether a pin of this number could stand at a place: it is on the board, and no other pin is too near.
#[tactic(auto, unfolding(crate::specs::Changes::fits, board::specs::Spots::within, board::specs::Spots::crowded, basics::specs::Tests::both))]
fn can_stand(spots: &[Spot; PINS], number: usize, at: Place) -> bool
    ensures { result ≡ fits spots.now number (Some at) }
{
    board::is_inside(at) && !spots::is_crowded(spots, number, at)
}

// Whether a pin fits among the others as the one of this number: it is absent, or has a net from 1 to 8 and could stand where it does.
#[tactic(auto, using(crate::proofs::Changing::absent_fits, crate::proofs::Changing::there_fits), unfolding(basics::specs::Tests::both))]
fn does_fit(spots: &[Spot; PINS], number: usize, pin: Pin) -> bool
    ensures { result ≡ pin_fits spots.now number pin }
{
    pin.is_none_or(|held| drawing::is_net(held.net) && can_stand(spots, number, held.place))
}

// Whether an edit can be made on pins that keep the rules, of which it names `pin`. The test for 28 asks this of every record, and takes a third less time
// with the function inlined.
#[inline(always)]
#[tactic(auto, unfolding(crate::specs::Changes::makeable_at, basics::specs::Tests::both))]
pub fn can_make(spots: &[Spot; PINS], edit: Edit, pin: Pin) -> bool
    ensures { result ≡ makeable_at edit pin spots.now }
{
    is_proper(edit) && is_found(edit, pin) && does_fit(spots, pin_of(edit), pin_made(edit, pin))
}

// Whether an edit that stands on pins that keep the rules, of which it names `pin`, could have been made: whether the edit that takes it back can be.
#[tactic(auto, using(crate::proofs::Reversing::reversed_test))]
pub fn can_take_back(spots: &[Spot; PINS], edit: Edit, pin: Pin) -> bool
    ensures { result ≡ takeable_at edit pin spots.now }
{
    can_make(spots, reversed(edit), pin)
}
