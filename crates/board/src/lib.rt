// The board: places, its range, how far numbers are apart, when two places are too near, what stands at each pin number, and the rules that pins keep.
#![tactic(auto)]

pub mod spots;

ghost use Rattle.std.specs.Prelude.{◌≡◌};
ghost use Rattle.board.specs.Place.{on_board, inside, difference, distance_of, closer, too_near};

// x and y go from -LIMIT to LIMIT.
pub const LIMIT: i32 = 60000;

// Two places whose x and whose y both differ by less than this are too near.
pub const LEAST_GAP: u64 = 20;

// A place on the grid, in grid steps; y grows upwards.
#[derive(Clone, Copy, PartialEq, Eq)]
pub struct Place {
    pub x: i32,
    pub y: i32,
}

// Whether a number is one that x and y may have.
fn on_board(z: i32) -> bool
    ensures { result ≡ on_board z }
{
    -LIMIT <= z && z <= LIMIT
}

// Whether a place is on the board.
#[tactic(auto, unfolding(crate::specs::Place::inside, basics::specs::Tests::both))]
pub fn is_inside(place: Place) -> bool
    ensures { result ≡ inside place }
{
    on_board(place.x) && on_board(place.y)
}

// The middle of the board; it stands in where there is no pin.
pub const MIDDLE: Place = Place { x: 0, y: 0 };

// How far two numbers are apart.
#[tactic(auto, unfolding(crate::specs::Place::difference))]
pub fn apart(a: i32, b: i32) -> u64
    ensures { result ≡ difference a b }
{
    u64::from(a.abs_diff(b))
}

// The distance of two places.
#[tactic(auto, using(crate::proofs::Board::difference_below), unfolding(crate::specs::Place::distance_of))]
pub fn distance(from: Place, to: Place) -> u64
    ensures { result ≡ distance_of from to }
{
    apart(from.x, to.x) + apart(from.y, to.y)
}

// Whether two numbers differ by less than the least gap.
#[tactic(auto, unfolding(crate::specs::Place::closer))]
fn is_closer(a: i32, b: i32) -> bool
    ensures { result ≡ closer a b }
{
    apart(a, b) < LEAST_GAP
}

// Whether two places are too near each other.
#[tactic(auto, unfolding(crate::specs::Place::too_near, basics::specs::Tests::both))]
pub fn too_near(a: Place, b: Place) -> bool
    ensures { result ≡ too_near a b }
{
    is_closer(a.x, b.x) && is_closer(a.y, b.y)
}

// Pins are numbered from 0 to one less than this.
pub const PINS: usize = 32;

// What stands at a pin's number: nothing, or a pin at a place.
pub type Spot = Option<Place>;
