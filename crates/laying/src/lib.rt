// Laying runs in copper: what the best shapes of the runs cost, the run entries that a mask of shapes gives, and the legs of these.
// A shape is a bool, and so is the favoured one: upper_in, shaped_run and entries_in (laying/Reaching) and least_of_tree (least/Asking) are functions of a Bool.
#![tactic(auto)]

ghost use Rattle.std.specs.Prelude.{◌≡◌, ◌≤◌, ◌<◌, length};
ghost use Rattle.board.specs.Spots.{place_in};
ghost use Rattle.tree.specs.Trees.{most_runs};
ghost use Rattle.least.specs.Asking.{near_pin, least_of_tree, Grown};
ghost use Rattle.laying.specs.Reaching.{place_if_reached, places_of, nears_of, Numbered, upper_in, shaped_run, entries_in, legs_of_entries, strip};

use board::{MIDDLE, PINS, Place, Spot, spots};
use copper::{Leg, Shape};
use least::{Least, Reached};
use std::array;
use tree::{RUNS, Run};

// The most legs that a board has: 31 runs of two legs each.
pub const LEGS: usize = 2 * RUNS;

// A run entry of the answer: near, far, shape.
#[derive(Clone, Copy)]
pub struct RunEntry {
    pub near: usize,
    pub far: usize,
    pub shape: Shape,
}

// A list of legs, with their number. The number stands beside the list: memory is fixed, and there is no heap.
#[derive(Clone, Copy)]
pub struct Strip {
    pub count: usize,
    pub list: [Leg; LEGS],
}

// A run entry after the last.
pub const NO_RUN: RunEntry = RunEntry {
    near: 0,
    far: 0,
    shape: Shape::Straight,
};

// A leg that is not filled.
pub const NO_LEG: Leg = Leg {
    from: MIDDLE,
    to: MIDDLE,
};

// The numbers as which the near pins of the runs are reached: each by the runs before its own.
fn nears_of(runs: &[Run]) -> [usize; RUNS]
    requires { Numbered runs.now }
    ensures { result ≡ nears_of runs.now }
{
    let mut order = [0; PINS];
    let mut nears = [0; RUNS];
    for (at, run) in runs.iter().enumerate() {
        nears[at] = order[run.near];
        order[run.far] = at + 1;
    }
    nears
}

// Where the pin stands that is reached as this number: the near pin of the first run, then the far pins in run order; the middle of the board where
// no run reaches one.
#[tactic(auto, unfolding(crate::specs::Reaching::place_if_reached))]
fn place_if_reached(spots: &[Spot; PINS], runs: &[Run], number: usize) -> Place
    ensures { result ≡ place_if_reached spots.now runs.now number }
{
    if number == 0 {
        runs.first()
            .map_or(MIDDLE, |run| spots::place_at(spots, run.near))
    } else {
        runs.get(number - 1)
            .map_or(MIDDLE, |run| spots::place_at(spots, run.far))
    }
}

// Where the pins stand, as they are reached.
fn places_of(spots: &[Spot; PINS], runs: &[Run]) -> [Place; PINS]
    ensures { result ≡ places_of spots.now runs.now }
{
    array::from_fn(|number| place_if_reached(spots, runs, number))
}

// What the best shapes of the runs cost, and the choices weighed: least costs are asked of the pins in the order in which they are reached.
pub fn best_cost(spots: &[Spot; PINS], runs: &[Run], favoured: bool) -> Least
    requires { (Numbered runs.now) × (Grown (places_of spots.now runs.now) (nears_of runs.now) (length runs.now)) }
    ensures { result ≡ least_of_tree (place_in (places_of spots.now runs.now)) (near_pin (nears_of runs.now)) favoured (length runs.now) }
{
    let reached = Reached {
        places: places_of(spots, runs),
        near: nears_of(runs),
        count: runs.len(),
    };
    reached.least_cost(favoured)
}

// How a mask bends a run if it does.
#[tactic(auto, using(crate::proofs::Filling::upper_marked, crate::proofs::Filling::upper_unmarked))]
fn upper_in(favoured: bool, mask: u64, run: usize) -> bool
    requires { run < most_runs }
    ensures { result ≡ upper_in favoured mask run }
{
    let marked = (mask >> (RUNS - 1 - run)) % 2 == 1;
    if marked { !favoured } else { favoured }
}

// A run with its shape, where `upper` says how it bends if it does.
#[tactic(auto, unfolding(crate::specs::Reaching::shaped_run))]
fn shaped(spots: &[Spot; PINS], run: Run, upper: bool) -> RunEntry
    ensures { result ≡ shaped_run spots.now run upper }
{
    let near = spots::place_at(spots, run.near);
    let far = spots::place_at(spots, run.far);
    RunEntry {
        near: run.near,
        far: run.far,
        shape: Shape::between(upper, near, far),
    }
}

// The run entries that a mask gives.
pub fn entries_in(spots: &[Spot; PINS], favoured: bool, mask: u64, runs: &[Run]) -> [RunEntry; RUNS]
    requires { length runs.now ≤ most_runs }
    ensures { result ≡ entries_in spots.now favoured mask runs.now }
{
    let mut entries = [NO_RUN; RUNS];
    for (at, run) in runs.iter().enumerate() {
        entries[at] = shaped(spots, *run, upper_in(favoured, mask, at));
    }
    entries
}

// The legs of some run entries, with their number. The place of the next leg is counted by hand: a run has one leg or two.
pub fn legs_of(spots: &[Spot; PINS], entries: &[RunEntry]) -> Strip
    requires { length entries.now ≤ most_runs }
    ensures { result ≡ strip (legs_of_entries spots.now entries.now) }
{
    let mut list = [NO_LEG; LEGS];
    let mut count = 0;
    for entry in entries {
        let near = spots::place_at(spots, entry.near);
        let far = spots::place_at(spots, entry.far);
        let more = entry.shape.leg_count();
        list[count] = entry.shape.first_leg(near, far);
        if more == 2 {
            list[count + 1] = entry.shape.second_leg(near, far);
        }
        count += more;
    }
    Strip { count, list }
}
