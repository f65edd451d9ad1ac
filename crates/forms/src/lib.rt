// Moving a map from one form to the other: over, from the old to the new, and back. No desk is needed.
#![tactic(auto)]

ghost use Rattle.std.specs.Prelude.{◌≡◌};
ghost use Rattle.basics.specs.Tests.{each_of};
ghost use Rattle.refusal.specs.Rows.{first_of};
ghost use Rattle.pinmap.specs.Map.{plain};
ghost use Rattle.forms.specs.Moving.{other_than, form_rows, moved_of, buffer_moved};

use board::PINS;
use drawing::Pin;
use pinmap::Form;
use refusal::{Refusal, Verdict};

// The form of a map that is moved to this one.
fn other_than(form: Form) -> Form
    ensures { result ≡ other_than form }
{
    match form {
        Form::Old => Form::New,
        Form::New => Form::Old,
    }
}

// Whether a pin, if it is there, has net 1 and part number 0, as the old form can hold it.
#[tactic(auto, unfolding(pinmap::specs::Map::plain, basics::specs::Tests::both))]
fn is_plain(pin: Pin) -> bool
    ensures { result ≡ plain pin }
{
    pin.is_none_or(|held| held.net == 1 && held.part == 0)
}

// Whether the old form can hold all pins.
fn are_plain(pins: &[Pin; PINS]) -> bool
    ensures { result ≡ each_of plain pins.now }
{
    pins.iter().all(|&pin| is_plain(pin))
}

// What turns a moving away once the map is read: 22 on the way back, and nothing on the way over.
#[tactic(auto, unfolding(refusal::specs::Rows::first_of), using(crate::proofs::Moving::told_back, crate::proofs::Moving::back_passes))]
fn turned_moving(to: Form, pins: &[Pin; PINS]) -> Verdict
    ensures { result ≡ first_of (form_rows to pins.now) }
{
    match to {
        Form::Old if !are_plain(pins) => Err(Refusal::OtherNetOrPart),
        Form::Old | Form::New => Ok(()),
    }
}

// Moves a map to a form, over to the new or back to the old, under its job: the bytes into a lent buffer, and how many they are, or why not.
pub fn move_map(to: Form, job: u16, map: &[u8], buffer: &mut [u8]) -> Result<usize, Refusal>
    ensures value { result ≡ moved_of to job map.now buffer.old }
    ensures buffer_after { buffer.new ≡ buffer_moved to job map.now buffer.old }
{
    let pins = readmap::read_under(other_than(to), map, job)?;
    turned_moving(to, &pins)?;
    writemap::write_map(to, &pins, job, buffer)
}
