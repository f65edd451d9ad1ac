// The runs of a feed: the tree that joins its pins, grown from the lowest-numbered pin, or why there is none.
#![tactic(auto)]

mod weights;

ghost use Rattle.std.specs.Prelude.{◌≡◌, true, map, Some};
ghost use Rattle.board.specs.Spots.{present, all_within, place_at};
ghost use Rattle.tree.specs.Growth.{runs_of};
ghost use Rattle.tree.specs.Trees.{tree_with, tree_of};
ghost use Rattle.tree.specs.Offers.{first_pin, offer_of, earlier_of, next_offer, next_nears, Standing, Ready};

use board::spots::place_at;
use board::{PINS, Place, Spot};
use refusal::Refusal;

// The weight of a pair of pins: the distance, minus the difference in y, minus the larger x.
#[derive(Clone, Copy, PartialEq, Eq, PartialOrd, Ord)]
pub struct Weight {
    pub distance: i32,
    pub rise: i32,
    pub right: i32,
}

// A pair of pins: its weight, its smaller and its larger pin number.
#[derive(Clone, Copy, PartialEq, Eq, PartialOrd, Ord)]
pub struct Pair {
    pub weight: Weight,
    pub low: usize,
    pub high: usize,
}

// A tree of PINS pins has one run fewer.
pub const RUNS: usize = PINS - 1;

// A run: the pin that was reached before it, and the pin that it reaches.
#[derive(Clone, Copy)]
pub struct Run {
    pub near: usize,
    pub far: usize,
}

// The runs of a feed in the order in which they are taken, with their number. Entries after the last are 0, 0. The number stands beside the list: there is no heap.
#[derive(Clone, Copy)]
pub struct Tree {
    pub count: usize,
    pub runs: [Run; RUNS],
}

// An offer to a pin that waits while the tree grows: the reached pin that would reach it, that pin, and their pair.
#[derive(Clone, Copy)]
pub struct Offer {
    pub near: usize,
    pub far: usize,
    pub pair: Pair,
}

// The lowest number of a pin that is there; none where none is.
fn first_pin(spots: &[Spot; PINS]) -> Option<usize>
    ensures { result ≡ first_pin spots.now }
{
    spots.iter().position(|spot| spot.is_some())
}

// The offer of a reached pin to one that waits.
#[tactic(auto, unfolding(crate::specs::Offers::offer_of))]
fn offer_of(spots: &[Spot; PINS], near: usize, far: usize) -> Offer
    requires { Standing (place_at spots.now) near × Standing (place_at spots.now) far }
    ensures { result ≡ offer_of (place_at spots.now) near far }
{
    let from = place_at(spots, near);
    let to = place_at(spots, far);
    Offer {
        near,
        far,
        pair: Pair::of(near, from, far, to),
    }
}

impl Offer {
    // The earlier of two offers; the first where neither comes before.
    #[tactic(auto, using(crate::proofs::Before::derived_order), unfolding(crate::specs::Offers::earlier_of, basics::specs::Tests::choose))]
    fn earlier(self, other: Offer) -> Offer
        ensures { result ≡ earlier_of self other }
    {
        if other.pair < self.pair { other } else { self }
    }
}

// The earliest offer to a pin that waits, once the pin `latest` is reached; each such pin keeps the near pin of its own earliest offer.
// Two arrays, since next_offer and next_nears (tree/Offers) take which pins wait and what each keeps; and by number, since one is written where it is read.
// Two weights are worked out for each waiting pin and turn, n * (n - 1) for n pins: under their square, and none is kept.
fn next_offer(
    spots: &[Spot; PINS],
    waits: &[bool; PINS],
    near: &mut [usize; PINS],
    latest: usize,
) -> Option<Offer>
    requires { Ready (place_at spots.now) waits.now near.old latest }
    ensures value { result ≡ next_offer (place_at spots.now) waits.now near.old latest }
    ensures near_after { near.new ≡ next_nears (place_at spots.now) waits.now near.old latest }
{
    let mut next: Option<Offer> = None;
    for pin in 0..PINS {
        if !waits[pin] {
            continue;
        }
        let kept = offer_of(spots, near[pin], pin);
        let new = offer_of(spots, latest, pin);
        let offer = kept.earlier(new);
        near[pin] = offer.near;
        next = Some(next.map_or(offer, |first| first.earlier(offer)));
    }
    next
}

// Which pins are there.
fn are_there(spots: &[Spot; PINS]) -> [bool; PINS]
    ensures { result ≡ map present spots.now }
{
    spots.map(|spot| spot.is_some())
}

// The runs that are taken when growing from the first pin, always the earliest offer.
fn grow(spots: &[Spot; PINS], first: usize) -> Tree
    requires { (all_within spots.now ≡ true) × (first_pin spots.now ≡ Some first) }
    ensures { result ≡ tree_with (runs_of spots.now) }
{
    let mut waits = are_there(spots);
    waits[first] = false;
    let mut near = [first; PINS];
    let mut latest = first;
    let mut runs = [Run { near: 0, far: 0 }; RUNS];
    // By number: it is the count of an early answer.
    for count in 0..RUNS {
        let Some(next) = next_offer(spots, &waits, &mut near, latest) else {
            return Tree { count, runs };
        };
        runs[count] = Run {
            near: next.near,
            far: next.far,
        };
        waits[next.far] = false;
        latest = next.far;
    }
    Tree { count: RUNS, runs }
}

// The runs of these pins, or 17.
#[tactic(auto, using(crate::proofs::Result::no_pins, crate::proofs::Result::the_runs))]
pub fn tree_of(spots: &[Spot; PINS]) -> Result<Tree, Refusal>
    requires { all_within spots.now ≡ true }
    ensures { result ≡ tree_of spots.now }
{
    let first = first_pin(spots).ok_or(Refusal::NoPins)?;
    Ok(grow(spots, first))
}
