// What stands at each pin number, and what the rules say of it.
// Functions that ask that all spots are on the board, or none too near another, take the list as it is: a type for such lists would have to be built
// from each drawing, bare list and map, where one test or the rules of a drawing show it.
ghost use Rattle.std.specs.Prelude.{◌≡◌, Some};
ghost use Rattle.board.specs.Spots.{place_at, within, spots_too_near, too_near_any, crowded, all_within, all_apart};

use crate::{MIDDLE, PINS, Place, Spot, is_inside, too_near};

// Where the pin with this number stands; the middle of the board where none does.
pub fn place_at(spots: &[Spot; PINS], pin: usize) -> Place
    ensures { result ≡ place_at spots.now pin }
{
    spots.get(pin).copied().flatten().unwrap_or(MIDDLE)
}

// Whether a pin stands here and is on the board, or none stands here.
#[tactic(auto, unfolding(crate::specs::Spots::within))]
fn is_within(spot: Spot) -> bool
    ensures { result ≡ within spot }
{
    spot.is_none_or(is_inside)
}

// Whether a pin stands here, too near to a place.
#[tactic(auto, unfolding(crate::specs::Spots::spots_too_near))]
fn is_near(at: Place, spot: Spot) -> bool
    ensures { result ≡ spots_too_near (Some at) spot }
{
    spot.is_some_and(|place| too_near(at, place))
}

// Whether one of these pins is too near to a place.
pub fn too_near_any(spots: &[Spot], at: Place) -> bool
    ensures { result ≡ too_near_any (Some at) spots.now }
{
    spots.iter().any(|&spot| is_near(at, spot))
}

// Whether a pin other than `pin` stands too near to a place.
pub fn is_crowded(spots: &[Spot; PINS], pin: usize, at: Place) -> bool
    ensures { result ≡ crowded spots.now pin at }
{
    spots
        .iter()
        .enumerate()
        .any(|(number, &spot)| number != pin && is_near(at, spot))
}

// Whether every pin that is there is on the board.
pub fn are_within(spots: &[Spot; PINS]) -> bool
    ensures { result ≡ all_within spots.now }
{
    spots.iter().all(|&spot| is_within(spot))
}

// Whether a pin stands here, too near to one of these.
#[tactic(auto, using(crate::proofs::Rules::absent_clear))]
fn is_near_any(spot: Spot, spots: &[Spot]) -> bool
    ensures { result ≡ too_near_any spot spots.now }
{
    spot.is_some_and(|at| too_near_any(spots, at))
}

// Whether no two pins are too near each other.
// A call of itself, as the definition no_two has it.
#[tactic(auto, unfolding(basics::specs::Tests::no_two, basics::specs::Tests::both))]
pub fn are_apart(spots: &[Spot]) -> bool
    ensures { result ≡ all_apart spots.now }
{
    match spots {
        [spot, later @ ..] => !is_near_any(*spot, later) && are_apart(later),
        [] => true,
    }
}
