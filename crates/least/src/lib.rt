// The least cost of a tree's shapes: what a pin costs is asked of the runs below it, and what a run costs of the pin at its far end.
// Pins are numbered by when they were reached: run r reaches pin r + 1 from pin near[r]. A shape is a bool: false is lower, true is upper.
// It stays a bool: the choices of shapes are defined over Bool (copper/Least: best), and each contract would have to turn an enum of its own into one.
#![tactic(auto)]

ghost use Rattle.std.specs.Prelude.{◌≡◌, ℕ, ◌+◌, ◌-◌, ◌≤◌, ◌<◌, true, IfSome};
ghost use Rattle.board.specs.Place.{inside};
ghost use Rattle.board.specs.Spots.{most_pins, place_in};
ghost use Rattle.tree.specs.Trees.{most_runs};
ghost use Rattle.least.specs.Asking.{base, near_pin, kept, mark_of, ends_of, is_bent_into, owed_alone, with_run, lesser_found, asked_kept, asked_pin, asked_run, least_kept, least_of_tree, own_from, Modest, Weighable, Answerable, Askable};
ghost use Rattle.copper.specs.Least.{is_bent, first_tally, next_tally};

use board::{PINS, Place};
use copper::Tally;
use tree::RUNS;

// More than any mask of 31 shapes: 2 ^ 31.
pub const BASE: u64 = 2147483648;

// What a pin, or a run, answers: the least cost for either shape, and the choices that were weighed for it.
#[derive(Clone, Copy)]
pub struct Asked {
    pub lower: u64,
    pub upper: u64,
    pub weighed: u64,
}

// What is kept for a run: its least cost for either shape. No more is kept, since a pin keeps one for each run, and up to 32 pins do so at a time.
#[derive(Clone, Copy)]
pub struct Costs {
    pub lower: u64,
    pub upper: u64,
}

// What is kept for a run that was not asked.
const UNASKED: Costs = Costs { lower: 0, upper: 0 };

// What is found at a pin: the least cost, and the choices that were weighed there.
#[derive(Clone, Copy)]
pub struct Least {
    pub cost: u64,
    pub weighed: u64,
}

// Where a run begins, and where it ends.
#[derive(Clone, Copy)]
pub struct Ends {
    pub near: Place,
    pub far: Place,
}

// A tree of at most 31 runs: where its pins stand, all on the board; the near pin of each run, which was reached before it; and how many runs there are.
// The number stands beside the arrays: memory is fixed, and there is no heap.
#[derive(Drop)]
pub struct Reached {
    pub places: [Place; PINS],
    pub near: [usize; RUNS],
    pub count: usize,
    pub ghost few: { count ≤ most_runs },
    pub ghost near_first: { (r : ℕ) → r < count → near_pin near r ≤ r },
    pub ghost on_board: { (i : ℕ) → inside (place_in places i) ≡ true },
}

// The mark of a shape in the mask of shapes.
#[tactic(auto, using(crate::proofs::Reading::mark_none, crate::proofs::Reading::mark_one))]
fn mark(favoured: bool, run: usize, upper: bool) -> u64
    requires { run < most_runs }
    ensures { result ≡ mark_of favoured run upper }
{
    if upper == favoured {
        return 0;
    }
    1 << (RUNS - 1 - run)
}

// What is found where no run is to come: what the pin's arms owe.
#[tactic(auto, using(crate::proofs::Modesty::modest_fair, crate::proofs::Modesty::modest_owed))]
fn owed_alone(tally: Tally) -> Least
    requires { Modest tally }
    ensures { result ≡ owed_alone tally }
{
    Least {
        cost: tally.owed() * BASE,
        weighed: 1,
    }
}

// What is found with one run more in one shape: what the run costs in it, and what was found without the run.
fn with_run(asked: u64, rest: Least) -> Least
    requires { asked + rest.cost < 18446744073709551616 }
    ensures { result ≡ with_run asked rest }
{
    Least {
        cost: asked + rest.cost,
        weighed: rest.weighed,
    }
}

// The lesser of what is found for either shape; the choices of both were weighed.
fn lesser_found(lower: Least, upper: Least) -> Least
    requires { (lower.weighed ≤ base) × (upper.weighed ≤ base) }
    ensures { result ≡ lesser_found lower upper }
{
    Least {
        cost: lower.cost.min(upper.cost),
        weighed: lower.weighed + upper.weighed,
    }
}

impl Reached {
    // The ends of a run.
    fn ends_of(&self, run: usize) -> Ends
        requires { run < self.now.count }
        ensures { result ≡ ends_of (place_in self.now.places) (near_pin self.now.near) run }
    {
        Ends {
            near: self.places[self.near[run]],
            far: self.places[run + 1],
        }
    }

    // Whether a run is bent.
    #[tactic(auto, unfolding(copper::specs::Least::is_bent))]
    fn is_bent(&self, run: usize) -> bool
        requires { run < self.now.count }
        ensures { result ≡ is_bent (place_in self.now.places) (near_pin self.now.near) run }
    {
        let ends = self.ends_of(run);
        !copper::is_straight(ends.near, ends.far)
    }

    // Whether the run that reached a pin is bent.
    #[tactic(auto, using(crate::proofs::Reading::into_first, crate::proofs::Reading::into_later))]
    fn is_bent_into(&self, pin: usize) -> bool
        requires { pin ≤ self.now.count }
        ensures { result ≡ is_bent_into (place_in self.now.places) (near_pin self.now.near) pin }
    {
        pin != 0 && self.is_bent(pin - 1)
    }

    // What a pin shows before any run leads on.
    #[tactic(auto, using(crate::proofs::Reading::tally_first, crate::proofs::Reading::tally_later))]
    fn first_tally(&self, pin: usize, upper: bool) -> Tally
        requires { pin ≤ self.now.count }
        ensures { result ≡ first_tally (place_in self.now.places) (near_pin self.now.near) pin upper }
    {
        if pin == 0 {
            return Tally::none();
        }
        let ends = self.ends_of(pin - 1);
        Tally::reached_by(upper, ends.near, ends.far)
    }

    // What a pin shows when a run leads on too.
    #[tactic(auto, unfolding(copper::specs::Least::next_tally))]
    fn next_tally(&self, tally: Tally, run: usize, upper: bool) -> Tally
        requires { run < self.now.count }
        ensures { result ≡ next_tally (place_in self.now.places) (near_pin self.now.near) tally run upper }
    {
        let ends = self.ends_of(run);
        tally.leading_on(upper, ends.near, ends.far)
    }

    // The first run from number `from` on that leads on from a pin. By number: the answer is one, and the list before `from` is not read.
    #[tactic(auto, using(crate::proofs::Owning::own_hit, crate::proofs::Owning::own_past, crate::proofs::Owning::own_end))]
    fn own_from(&self, pin: usize, from: usize) -> Option<usize>
        ensures first { result ≡ own_from (near_pin self.now.near) (self.now.count - from) pin from }
        ensures leads { IfSome result (λ run. (from ≤ run) × (run < self.now.count) × (near_pin self.now.near run ≡ pin)) }
    {
        for run in from..self.count {
            if self.near[run] == pin {
                return Some(run);
            }
        }
        None
    }

    // What a pin costs with all below it, where it shows `tally`, the runs from number `from` on are to come, and runs cost what is kept for them:
    // every choice of the shapes to come is weighed. What the runs were asked is lent beside the tree: it is of the pin's own turn.
    fn weigh(&self, asked: &[Costs; RUNS], pin: usize, from: usize, tally: Tally) -> Least
        requires { Weighable asked.now tally }
        ensures { result ≡ least_kept (place_in self.now.places) (near_pin self.now.near) (kept asked.now) self.now.count pin from tally }
    {
        let Some(run) = self.own_from(pin, from) else {
            return owed_alone(tally);
        };
        let low = self.next_tally(tally, run, false);
        let in_lower = with_run(asked[run].lower, self.weigh(asked, pin, run + 1, low));
        if !self.is_bent(run) {
            return in_lower;
        }
        let up = self.next_tally(tally, run, true);
        let in_upper = with_run(asked[run].upper, self.weigh(asked, pin, run + 1, up));
        lesser_found(in_lower, in_upper)
    }

    // What a pin answers once its runs were asked: every choice of their shapes is weighed, for either shape of the run that reached the pin.
    fn pin_answer(&self, asked: &[Costs; RUNS], pin: usize) -> Asked
        requires { Answerable asked.now self.now.count pin }
        ensures { result ≡ asked_kept (place_in self.now.places) (near_pin self.now.near) (kept asked.now) self.now.count pin }
    {
        let low = self.first_tally(pin, false);
        let in_lower = self.weigh(asked, pin, pin, low);
        if !self.is_bent_into(pin) {
            return Asked {
                lower: in_lower.cost,
                upper: in_lower.cost,
                weighed: in_lower.weighed,
            };
        }
        let up = self.first_tally(pin, true);
        let in_upper = self.weigh(asked, pin, pin, up);
        Asked {
            lower: in_lower.cost,
            upper: in_upper.cost,
            weighed: in_lower.weighed + in_upper.weighed,
        }
    }

    // What a pin costs, for either shape of the run that reached it: the runs that lead on from it are asked once each.
    #[cycle(pin_best_run_best)]
    fn pin_best(&self, favoured: bool, pin: usize) -> Asked
        requires { Askable self.now.near self.now.count pin }
        ensures { result ≡ asked_pin (place_in self.now.places) (near_pin self.now.near) favoured self.now.count pin }
    {
        let mut asked = [UNASKED; RUNS];
        let mut weighed = 0;
        // By number: a run is asked by its number, and two lists are read at it.
        for run in pin..self.count {
            if self.near[run] == pin {
                let far = self.run_best(favoured, run);
                asked[run] = Costs {
                    lower: far.lower,
                    upper: far.upper,
                };
                weighed += far.weighed;
            }
        }
        let here = self.pin_answer(&asked, pin);
        Asked {
            lower: here.lower,
            upper: here.upper,
            weighed: weighed + here.weighed,
        }
    }

    // What a run costs in either shape: its mark, and what the pin at its far end costs.
    #[cycle(pin_best_run_best)]
    fn run_best(&self, favoured: bool, run: usize) -> Asked
        requires { Askable self.now.near self.now.count (run + 1) }
        ensures { result ≡ asked_run (place_in self.now.places) (near_pin self.now.near) favoured self.now.count run }
    {
        let far = self.pin_best(favoured, run + 1);
        let low = mark(favoured, run, false);
        let up = mark(favoured, run, true);
        Asked {
            lower: low + far.lower,
            upper: up + far.upper,
            weighed: far.weighed,
        }
    }

    // What the shapes of the whole tree cost at least, and the choices that are weighed to find it.
    pub fn least_cost(&self, favoured: bool) -> Least
        ensures { result ≡ least_of_tree (place_in self.now.places) (near_pin self.now.near) favoured self.now.count }
    {
        let asked = self.pin_best(favoured, 0);
        Least {
            cost: asked.lower,
            weighed: asked.weighed,
        }
    }
}
