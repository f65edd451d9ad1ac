// What the pins of a drawing say of an edit that a call states: whether one of the refusals 6, 7, 21, 8 and 9 turns it away.
#![tactic(auto)]

ghost use Rattle.std.specs.Prelude.{◌≡◌};
ghost use Rattle.refusal.specs.Rows.{first_of};
ghost use Rattle.edits.specs.declared.stated.Making.TheVariants.{Placing, Moving, Removing};
ghost use Rattle.pinrows.specs.PinRows.{making_rows};

use board::{PINS, Place};
use drawing::{Held, Pin};
use edits::stated::Making;
use refusal::{Refusal, Verdict};

// Placing on these pins: 6, 7, 21, 8, 9.
#[tactic(auto, unfolding(refusal::specs::Rows::first_of, basics::specs::Tests::choose, drawing::specs::Pins::is_there))]
fn turned_placing(pins: &[Pin; PINS], pin: usize, held: Held) -> Verdict
    ensures { result ≡ first_of (making_rows pins.now (Placing pin held)) }
{
    if PINS <= pin {
        return Err(Refusal::NoSuchPin);
    }
    if drawing::pin_at(pins, pin).is_some() {
        return Err(Refusal::PinThere);
    }
    if !drawing::is_net(held.net) {
        return Err(Refusal::NoSuchNet);
    }
    if !board::is_inside(held.place) {
        return Err(Refusal::Outside);
    }
    if drawing::is_crowded(pins, pin, held.place) {
        return Err(Refusal::PinTooNear);
    }
    Ok(())
}

// Removing from these pins, and what moving is turned away by first: 6.
#[tactic(auto, unfolding(refusal::specs::Rows::first_of, basics::specs::Tests::choose, basics::specs::Tests::either, drawing::specs::Pins::is_there))]
fn turned_removing(pins: &[Pin; PINS], pin: usize) -> Verdict
    ensures { result ≡ first_of (making_rows pins.now (Removing pin)) }
{
    match drawing::pin_at(pins, pin) {
        Some(_) => Ok(()),
        None => Err(Refusal::NoSuchPin),
    }
}

// Moving on these pins: 6, 8, 9.
#[tactic(auto, unfolding(refusal::specs::Rows::first_of, basics::specs::Tests::choose, basics::specs::Tests::either))]
fn turned_moving(pins: &[Pin; PINS], pin: usize, to: Place) -> Verdict
    ensures { result ≡ first_of (making_rows pins.now (Moving pin to)) }
{
    turned_removing(pins, pin)?;
    if !board::is_inside(to) {
        return Err(Refusal::Outside);
    }
    if drawing::stands_at(drawing::pin_at(pins, pin), to) || drawing::is_crowded(pins, pin, to) {
        return Err(Refusal::PinTooNear);
    }
    Ok(())
}

// Making an edit on these pins, by what the call states.
pub fn turned_edit(pins: &[Pin; PINS], making: Making) -> Verdict
    ensures { result ≡ first_of (making_rows pins.now making) }
{
    match making {
        Making::Placing(pin, held) => turned_placing(pins, pin, held),
        Making::Moving(pin, to) => turned_moving(pins, pin, to),
        Making::Removing(pin) => turned_removing(pins, pin),
    }
}
