// The list that a host lends: filled with the legs of an answer or its segments, later entries unchanged.
#![tactic(auto)]

ghost use Rattle.std.specs.Prelude.{◌≡◌, ◌≤◌, length};
ghost use Rattle.laying.specs.Entries.{most_legs};
ghost use Rattle.lent.specs.Lent.{strip_of, filled_with};

use copper::Leg;
use laying::Strip;
use wiring::{Laid, Wiring};

// The wiring of an answer, without its legs. It stays since it is public; reading the field would do.
pub fn wiring_of(laid: Laid) -> Wiring
    ensures { result ≡ laid.wiring }
{
    laid.wiring
}

// The legs of an answer, with their number.
// One function here and one in mill: they read other fields of other structs, and a trait for the two would be longer than both.
pub fn strip_of(laid: Laid) -> Strip
    ensures { result ≡ strip_of laid }
{
    // The list is read into a variable: an array that goes straight from a field into a struct is not covered by the prover.
    let list = laid.list;
    Strip {
        count: laid.wiring.legs,
        list,
    }
}

// Fills the list that was lent with the entries of a strip; entries after these keep what they held.
#[tactic(auto, unfolding(crate::specs::Lent::filled_with))]
pub fn fill(strip: Strip, lent: &mut [Leg])
    requires { (strip.count ≤ most_legs) × (strip.count ≤ length lent.old) }
    ensures { lent.new ≡ filled_with strip lent.old }
{
    lent[..strip.count].copy_from_slice(&strip.list[..strip.count]);
}
