// Weights: the weight of a pair of pins, and the pair itself. Which of two pairs comes before the other is their derived order.
ghost use Rattle.std.specs.Prelude.{◌≡◌, true};
ghost use Rattle.board.specs.Place.{inside};
ghost use Rattle.tree.specs.Weight.{weight_of, pair_of};

use crate::{Pair, Weight};
use board::Place;

impl Weight {
    // The weight of the pair of two places of the board.
    pub fn of(a: Place, b: Place) -> Weight
        requires { (inside a ≡ true) × (inside b ≡ true) }
        ensures { result ≡ weight_of a b }
    {
        let dx = (a.x - b.x).abs();
        let dy = (a.y - b.y).abs();
        Weight {
            distance: dx + dy,
            rise: -dy,
            right: -a.x.max(b.x),
        }
    }
}

impl Pair {
    // The pair of pin `i` at `a` and pin `j` at `b`.
    #[tactic(auto, unfolding(crate::specs::Weight::pair_of))]
    pub fn of(i: usize, a: Place, j: usize, b: Place) -> Pair
        requires { (inside a ≡ true) × (inside b ≡ true) }
        ensures { result ≡ pair_of i a j b }
    {
        Pair {
            weight: Weight::of(a, b),
            low: i.min(j),
            high: i.max(j),
        }
    }
}
