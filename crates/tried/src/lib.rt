// A seat's edits tried on its pins: whether those taken back can be redone, and those that stand taken back.
#![tactic(auto)]

ghost use Rattle.std.specs.Prelude.{◌≡◌, true, reverse, ◌≤◌, drop, length, take, List, Bool, map};
ghost use Rattle.std.specs.Iterator.{AlwaysYields, IsFinite};
ghost use Rattle.drawing.specs.Pins.{lawful, Pin};
ghost use Rattle.edits.specs.declared.Edit.{Edit};
ghost use Rattle.edits.specs.Edits.{pin_made};
ghost use Rattle.edits.specs.Changes.{pin_of, makeable_at};
ghost use Rattle.journal.specs.Journal.{most_records, in_use, own, makeable_all, takeable_all};

use board::{PINS, Spot};
use drawing::Pin;
use edits::Edit;
use journal::Journal;

// Whether edits can be made on these pins, which keep the rules, one after the other: each as it is, or each turned into the one that takes it back.
// `passes` says of an edit whether it, so turned, can be made where it names this pin, and `leaves` what pin it leaves there.
// That the pins keep the rules is asked here and is no invariant of a type: the pins are those of a seat, which a host may hand with any (rows::Found).
fn can_make_all<
    I: Iterator<Item = Edit> + Drop,
    P: Fn(&[Spot; PINS], Edit, Pin) -> bool,
    L: Fn(Edit, Pin) -> Pin,
>(pins: &[Pin; PINS], edits: I, passes: P, leaves: L) -> bool
    ghost turned: { Edit → Edit }
    requires rules { lawful pins.now ≡ true }
    requires can { I.can_next edits }
    requires ends { IsFinite (I.remaining edits) }
    requires passes_callable { P.IsAlwaysCallable passes }
    requires leaves_callable { L.IsAlwaysCallable leaves }
    requires same_number { (edit : Edit) → pin_of (turned edit) ≡ pin_of edit }
    requires tested { (spots : _) (edit : Edit) (pin : Pin) (b : Bool) → P.post passes spots edit pin b → b ≡ makeable_at (turned edit) pin spots.now }
    requires left { (edit : Edit) (pin next : Pin) → L.post leaves edit pin next → next ≡ pin_made (turned edit) (pin_of (turned edit)) pin }
    ensures { (l : List Edit) → AlwaysYields I.next_gives (λ e. e) edits l → result ≡ makeable_all pins.now (map turned l) }
{
    let mut after = *pins;
    let mut spots = drawing::spots_of(pins);
    for edit in edits {
        let number = edits::pin_of(edit);
        let pin = drawing::pin_at(&after, number);
        if !passes(&spots, edit, pin) {
            return false;
        }
        let next = leaves(edit, pin);
        after[number] = next;
        spots[number] = drawing::spot_of(next);
    }
    true
}

// Whether the seat's taken-back edits, those after the first `standing`, can be made on these pins, which keep the rules, one after the other.
pub fn can_redo_all(pins: &[Pin; PINS], journal: &Journal, seat: usize, standing: usize) -> bool
    requires { (journal.now.used ≤ most_records) × (lawful pins.now ≡ true) }
    ensures { result ≡ makeable_all pins.now (drop standing (own seat (in_use journal.now))) }
{
    let taken_back = journal
        .in_use()
        .iter()
        .filter(|record| record.seat == seat)
        .map(|record| record.edit)
        .skip(standing);
    can_make_all(pins, taken_back, edits::can_make, edits::pin_made)
}

// Whether the seat's first `standing` edits of the `owned` that it has can be taken back from these pins, which keep the rules, the latest first.
pub fn can_take_back_all(
    pins: &[Pin; PINS],
    journal: &Journal,
    seat: usize,
    owned: usize,
    standing: usize,
) -> bool
    requires { (journal.now.used ≤ most_records) × (owned ≡ length (own seat (in_use journal.now))) × (standing ≤ owned) × (lawful pins.now ≡ true) }
    ensures { result ≡ takeable_all pins.now (reverse (take standing (own seat (in_use journal.now)))) }
{
    let standing_edits = journal
        .in_use()
        .iter()
        .rev()
        .filter(|record| record.seat == seat)
        .map(|record| record.edit)
        .skip(owned - standing);
    can_make_all(
        pins,
        standing_edits,
        edits::can_take_back,
        edits::pin_unmade,
    )
}
