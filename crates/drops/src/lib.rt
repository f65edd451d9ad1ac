// Volts lost on the way to each pin: the currents of the runs, the drops of the pins. Everything is f32, one rounding an operation.
#![tactic(auto)]

ghost use Rattle.std.specs.Prelude.{◌≡◌, true, ◌≤◌, ◌<◌, ◌*◌, IfSome};
ghost use Rattle.basics.specs.Lists.{padded};
ghost use Rattle.refusal.specs.Rows.{first_of, granted};
ghost use Rattle.board.specs.Place.{limit};
ghost use Rattle.board.specs.Spots.{all_within};
ghost use Rattle.tree.specs.Trees.{most_runs};
ghost use Rattle.loads.specs.Loads.{nought};
ghost use Rattle.drops.specs.Drops.{currents_of, run_drop, distance_of_run, drops_after, no_drops, drops_of, drop_rows, none_lost, lost_of};
ghost use Rattle.drops.specs.Passes.{PinNumbers, amps_at, Rising, plus_along};

use board::spots::place_at;
use board::{PINS, Place, Spot};
use loads::{Load, Sheet};
use refusal::{Refusal, Verdict};
use tree::{RUNS, Run};

// What is answered: the verdict, and the drop of each pin number. They stand side by side, since all drops of a refused answer are 0 (drops/Drops: none_lost).
#[derive(Clone, Copy)]
pub struct Lost {
    pub verdict: Verdict,
    pub drops: [f32; PINS],
}

// A number plus the currents of the runs along a chain, in its order: after each run it tells the next one, or none.
fn plus_along(
    chain: &[Option<usize>; RUNS],
    currents: &[f32; RUNS],
    first: Option<usize>,
    own: f32,
) -> f32
    requires { Rising chain.now × IfSome first (λ r. r < most_runs) }
    ensures { result ≡ plus_along chain.now currents.now most_runs first own }
{
    let mut total = own;
    // Followed in a loop: the library takes its iterator over a chain, `successors`, for endless, and sums up none that is.
    let mut next = first;
    while let Some(run) = next {
        total += currents[run];
        next = chain[run];
    }
    total
}

// The currents of the runs, from the last to the first: each needs those after it. On the way a chain is made for each pin, of the runs that lead on
// from it: `leading` tells the first of them so far, `chain` the next one after each; a run is put before those that are in.
fn currents_of(runs: &[Run], loads: &[Load; PINS], sheet: Sheet) -> [f32; RUNS]
    requires { PinNumbers runs.now }
    ensures { result ≡ padded most_runs nought (currents_of (amps_at loads.now sheet) runs.now) }
{
    let mut currents = [0.0f32; RUNS];
    // Chains of numbers in two arrays: nothing is on a heap here, and so each current is added once, in run order. The currents
    // stand beside the runs, as currents_of (drops/Drops) has them in a list.
    let mut leading: [Option<usize>; PINS] = [None; PINS];
    let mut chain: [Option<usize>; RUNS] = [None; RUNS];
    for (at, run) in runs.iter().enumerate().rev() {
        let own = loads[run.far].amps(sheet);
        currents[at] = plus_along(&chain, &currents, leading[run.far], own);
        chain[at] = leading[run.near];
        leading[run.near] = Some(at);
    }
    currents
}

// The drop of a run: current times ohms per step, then times the distance, which an f32 holds without loss.
fn run_drop(current: f32, sheet: Sheet, distance: u64) -> f32
    requires { distance ≤ 4 * limit }
    ensures { result ≡ run_drop current sheet.ohms distance }
{
    // A cast, since the language has no conversion into an f32 from a number of more than 16 bits.
    let steps = distance as f32;
    current * sheet.ohms * steps
}

// The drop of a run between two pins.
#[tactic(auto, using(crate::proofs::Distances::pins_near))]
fn drop_between(spots: &[Spot; PINS], run: Run, current: f32, sheet: Sheet) -> f32
    requires { all_within spots.now ≡ true }
    ensures { result ≡ run_drop current sheet.ohms (distance_of_run spots.now run) }
{
    let from = place_at(spots, run.near);
    let to = place_at(spots, run.far);
    run_drop(current, sheet, board::distance(from, to))
}

// The drops of the pins, run by run: a pin's drop is its near pin's plus that of the run.
fn drops_over(
    spots: &[Spot; PINS],
    runs: &[Run],
    currents: &[f32; RUNS],
    sheet: Sheet,
) -> [f32; PINS]
    requires { (all_within spots.now ≡ true) × PinNumbers runs.now }
    ensures { result ≡ drops_after spots.now sheet.ohms no_drops runs.now currents.now }
{
    let mut drops = [0.0f32; PINS];
    for (run, current) in runs.iter().zip(currents) {
        let more = drop_between(spots, *run, *current, sheet);
        drops[run.far] = drops[run.near] + more;
    }
    drops
}

// A refusal: every drop is 0.
pub fn refused(verdict: Verdict) -> Lost
    ensures { result ≡ none_lost verdict }
{
    Lost {
        verdict,
        drops: [0.0; PINS],
    }
}

// The drops of the pins: 17 as for wiring, 20 where the sheet or a load of a pin that is there is out of its range.
#[tactic(auto, using(crate::proofs::Answering::count_low, crate::proofs::Answering::runs_low))]
fn lost_volts(
    spots: &[Spot; PINS],
    loads: &[Load; PINS],
    sheet: Sheet,
) -> Result<[f32; PINS], Refusal>
    requires { all_within spots.now ≡ true }
    ensures { result ≡ granted (first_of (drop_rows spots.now loads.now sheet)) (drops_of spots.now loads.now sheet) }
{
    let tree = tree::tree_of(spots)?;
    if !(sheet.fits() && loads::loads_fit(loads, spots)) {
        return Err(Refusal::OutOfRange);
    }
    let runs = &tree.runs[..tree.count];
    let currents = currents_of(runs, loads, sheet);
    Ok(drops_over(spots, runs, &currents, sheet))
}

// The volts lost to pins that stand on the board: the drops, all 0 where they are refused.
pub fn drops_of(spots: &[Spot; PINS], loads: &[Load; PINS], sheet: Sheet) -> Lost
    requires { all_within spots.now ≡ true }
    ensures { result ≡ lost_of spots.now loads.now sheet }
{
    match lost_volts(spots, loads, sheet) {
        Ok(drops) => Lost {
            verdict: Ok(()),
            drops,
        },
        Err(refusal) => refused(Err(refusal)),
    }
}
