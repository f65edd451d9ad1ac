// Bare wiring: lists of x and y as a feed, what is turned away, and the wiring of the rest.
// x and y are two lists, as they are lent: 16 is answered where they differ in length (bare/Bare: wrong_lengths).
#![tactic(auto)]

ghost use Rattle.std.specs.Prelude.{◌≡◌, length};
ghost use Rattle.refusal.specs.Rows.{first_of, granted};
ghost use Rattle.lent.specs.Lent.{strip_of, filled_with};
ghost use Rattle.bare.specs.Bare.{listed_at, feed_of_lists, wrong_lengths, list_rows, bare_of};

use board::{PINS, Place, Spot, spots};
use copper::{Favour, Leg};
use lent::{fill, strip_of};
use refusal::Refusal;
use std::array;
use wiring::{Laid, Wiring};

// Whether x and y lists differ in length, or exceed 32.
#[tactic(auto, unfolding(crate::specs::Bare::wrong_lengths, basics::specs::Tests::either))]
fn wrong_lengths(xs: &[i32], ys: &[i32]) -> bool
    ensures { result ≡ wrong_lengths xs.now ys.now }
{
    xs.len() != ys.len() || PINS < xs.len()
}

// The pin at a position of lists of x and y, which are equally long; none after their last.
#[tactic(auto, unfolding(basics::specs::Tests::choose))]
fn listed_at(xs: &[i32], ys: &[i32], pin: usize) -> Spot
    requires { length xs.now ≡ length ys.now }
    ensures { result ≡ listed_at xs.now ys.now pin }
{
    if pin < xs.len() {
        Some(Place {
            x: xs[pin],
            y: ys[pin],
        })
    } else {
        None
    }
}

// The pins of lists of x and y, which are equally long, numbered by position.
fn feed_of_lists(xs: &[i32], ys: &[i32]) -> [Spot; PINS]
    requires { length xs.now ≡ length ys.now }
    ensures { result ≡ feed_of_lists xs.now ys.now }
{
    array::from_fn(|pin| listed_at(xs, ys, pin))
}

// The feed of lists of x and y, or why they are turned away: 16, 17, 8, 9.
#[tactic(auto, using(crate::proofs::Verdicts::lengths_right, crate::proofs::Verdicts::lengths_wrong, crate::proofs::Verdicts::no_pins, crate::proofs::Verdicts::one_outside, crate::proofs::Verdicts::two_near, crate::proofs::Verdicts::all_well))]
fn lawful_feed(xs: &[i32], ys: &[i32]) -> Result<[Spot; PINS], Refusal>
    ensures { result ≡ granted (first_of (list_rows xs.now ys.now)) (feed_of_lists xs.now ys.now) }
{
    if wrong_lengths(xs, ys) {
        return Err(Refusal::ListLengths);
    }
    if xs.is_empty() {
        return Err(Refusal::NoPins);
    }
    let spots = feed_of_lists(xs, ys);
    if !spots::are_within(&spots) {
        return Err(Refusal::Outside);
    }
    if !spots::are_apart(&spots) {
        return Err(Refusal::PinTooNear);
    }
    Ok(spots)
}

// Wires lists of x and y with room for so many legs, as is said of the shape to favour; or says why not: 16, 17, 8, 9, 19.
#[tactic(auto, using(crate::proofs::Verdicts::turned, crate::proofs::Verdicts::feed_within, crate::proofs::Verdicts::feed_apart, crate::proofs::Verdicts::wired))]
pub fn wire_bare(xs: &[i32], ys: &[i32], room: usize, favour: Favour) -> Laid
    ensures { result ≡ bare_of xs.now ys.now room favour }
{
    match lawful_feed(xs, ys) {
        Ok(spots) => wiring::wire_feed(&spots, room, favour),
        Err(refusal) => wiring::refused(Err(refusal)),
    }
}

// Wires lists of x and y, and fills the list that was lent with the legs; or says why not, and leaves the list as it was.
#[tactic(auto, using(crate::proofs::Fitting::bare_fits))]
pub fn wire_lent(xs: &[i32], ys: &[i32], legs: &mut [Leg], favour: Favour) -> Wiring
    ensures { (result ≡ (bare_of xs.now ys.now (length legs.old) favour).wiring) × (legs.new ≡ filled_with (strip_of (bare_of xs.now ys.now (length legs.old) favour)) legs.old) }
{
    let laid = wire_bare(xs, ys, legs.len(), favour);
    fill(strip_of(laid), legs);
    laid.wiring
}
