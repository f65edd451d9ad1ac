// Wiring: the best shapes of the runs, the answer with its legs, and the choices weighed.
#![tactic(auto)]

ghost use Rattle.std.specs.Prelude.{◌≡◌, true};
ghost use Rattle.board.specs.Spots.{all_within, all_apart};
ghost use Rattle.wiring.specs.Answer.{turned_away, wiring_favouring, wiring_of};

use board::{PINS, Spot};
use copper::{Favour, Leg};
use laying::{LEGS, NO_LEG, NO_RUN, RunEntry};
use least::BASE;
use refusal::{Refusal, Verdict};
use tree::RUNS;

// The answer of a wiring: its verdict, the length, the number of runs, the run entries, the number of legs, and the choices weighed.
// The verdict stands beside the rest, and numbers beside entries: a refused answer has zeros and blank entries (wiring/Demand: Empty), and there is no heap.
#[derive(Clone, Copy)]
pub struct Wiring {
    pub verdict: Verdict,
    pub length: u64,
    pub runs: usize,
    pub entries: [RunEntry; RUNS],
    pub legs: usize,
    pub weighed: u64,
}

// The answer with the list of its legs by value.
#[derive(Clone, Copy)]
pub struct Laid {
    pub wiring: Wiring,
    pub list: [Leg; LEGS],
}

// A refused wiring.
#[tactic(auto, unfolding(crate::specs::Answer::turned_away, laying::specs::Entries::run_entries, laying::specs::Entries::leg_entries))]
pub fn refused(verdict: Verdict) -> Laid
    ensures { result ≡ turned_away verdict }
{
    Laid {
        wiring: Wiring {
            verdict,
            length: 0,
            runs: 0,
            entries: [NO_RUN; RUNS],
            legs: 0,
            weighed: 0,
        },
        list: [NO_LEG; LEGS],
    }
}

// The wiring of a feed, where one shape is favoured: false for lower, true for upper.
// It stays a bool: wiring_favouring (wiring/Answer) and BestWiring (wiring/Demand) take a Bool.
// The room and the favour are parameters of their own, here and above, as a host states them.
// It answers the wiring, a refused one too, and no Result: an answer is of 1.7 KiB, and one in a Result would stand on the stack beside it while the shapes are asked.
#[tactic(auto, using(crate::proofs::Answering::tree_refuses, crate::proofs::Room::room_short))]
fn wire_favouring(spots: &[Spot; PINS], room: usize, favoured: bool) -> Laid
    requires { (all_within spots.now ≡ true) × (all_apart spots.now ≡ true) }
    ensures { result ≡ wiring_favouring favoured spots.now room }
{
    let tree = match tree::tree_of(spots) {
        Ok(tree) => tree,
        Err(refusal) => return refused(Err(refusal)),
    };
    let runs = &tree.runs[..tree.count];
    let found = laying::best_cost(spots, runs, favoured);
    let mask = found.cost % BASE;
    let entries = laying::entries_in(spots, favoured, mask, runs);
    let strip = laying::legs_of(spots, &entries[..tree.count]);
    if room < strip.count {
        return refused(Err(Refusal::RoomTooSmall));
    }
    let list = strip.list;
    let wiring = Wiring {
        verdict: Ok(()),
        length: found.cost / BASE,
        runs: tree.count,
        entries,
        legs: strip.count,
        weighed: found.weighed,
    };
    Laid { wiring, list }
}

// The wiring of a feed whose pins stand on the board, no two of them too near, with room for so many legs, where this is said of the shape to favour.
#[tactic(auto, unfolding(crate::specs::Answer::wiring_of))]
pub fn wire_feed(spots: &[Spot; PINS], room: usize, favour: Favour) -> Laid
    requires { (all_within spots.now ≡ true) × (all_apart spots.now ≡ true) }
    ensures { result ≡ wiring_of spots.now room favour }
{
    let favoured = favour.is_upper();
    wire_favouring(spots, room, favoured)
}
