// Whether seats and the journal that they share are sound: each part of the test of a desk.
#![tactic(auto)]

ghost use Rattle.std.specs.Prelude.{◌≡◌, ◌≤◌, eqb, leb, length};
ghost use Rattle.basics.specs.Tests.{both};
ghost use Rattle.journal.specs.Journal.{most_records, most_seats, in_use, own, seated};
ghost use Rattle.sound.specs.Sound.{sound_open, sound_seat, sound_to, sound_all};

use journal::{Journal, SEATS};
use seats::Seat;

// Whether the used count is in its range, and each used record's seat too.
#[tactic(auto, unfolding(basics::specs::Tests::both))]
fn journal_is_sound(journal: &Journal) -> bool
    ensures whole { length journal.now.records ≡ most_records }
    ensures tested { result ≡ both (leb journal.now.used most_records) (seated (in_use journal.now)) }
{
    // A proof knows how many records lie behind the reference only once they are looked at: so not `used <= RECORDS`.
    journal.records.get(..journal.used).is_some() && journal.all_seated()
}

// Whether an open seat, of that number and with `owned` records, is sound.
#[tactic(auto, unfolding(crate::specs::Sound::sound_open, basics::specs::Tests::both))]
fn open_is_sound(seat: &Seat, number: usize, owned: usize, journal: &Journal) -> bool
    requires { (journal.now.used ≤ most_records) × (owned ≡ length (own number (in_use journal.now))) }
    ensures { result ≡ sound_open seat.now (own number (in_use journal.now)) }
{
    seat.job != 0
        && seat.standing <= owned
        && drawing::keep_rules(&seat.pins)
        && tried::can_take_back_all(&seat.pins, journal, number, owned, seat.standing)
        && tried::can_redo_all(&seat.pins, journal, number, seat.standing)
}

// Whether a closed seat with so many records and standing edits is sound: it has none of either.
#[tactic(auto, unfolding(basics::specs::Tests::both))]
fn closed_is_sound(owned: usize, standing: usize) -> bool
    ensures { result ≡ both (eqb owned 0) (eqb standing 0) }
{
    owned == 0 && standing == 0
}

// Whether a seat, of that number and with `owned` records, is sound: as an open one, or as a closed one.
#[tactic(auto, unfolding(crate::specs::Sound::sound_seat, crate::specs::Sound::sound_closed, basics::specs::Tests::choose))]
fn seat_is_sound(seat: &Seat, number: usize, owned: usize, journal: &Journal) -> bool
    requires { (journal.now.used ≤ most_records) × (owned ≡ length (own number (in_use journal.now))) }
    ensures { result ≡ sound_seat seat.now (own number (in_use journal.now)) }
{
    if seat.opened {
        open_is_sound(seat, number, owned, journal)
    } else {
        closed_is_sound(owned, seat.standing)
    }
}

// Whether every seat is sound.
// A loop, since a closure would have to require what the loop's invariant shows.
#[tactic(auto, using(journal::proofs::Counts::count_at, crate::proofs::Tests::seats_none, crate::proofs::Tests::seats_next, crate::proofs::Tests::seats_stop))]
fn each_is_sound(seats: &[Seat; SEATS], journal: &Journal) -> bool
    requires { journal.now.used ≤ most_records }
    ensures { result ≡ sound_to most_seats seats.now (in_use journal.now) }
{
    let counts = journal.counts();
    for (number, seat) in seats.iter().enumerate() {
        if !seat_is_sound(seat, number, counts[number], journal) {
            return false;
        }
    }
    true
}

// Whether seats and the journal that they share are sound.
#[tactic(auto, using(crate::proofs::Tests::used_tested), unfolding(crate::specs::Sound::sound_all, basics::specs::Tests::both))]
pub fn are_sound(seats: &[Seat; SEATS], journal: &Journal) -> bool
    ensures { result ≡ sound_all seats.now journal.now }
{
    journal_is_sound(journal)
        && seats::jobs_apart(&seats::jobs_of(seats))
        && each_is_sound(seats, journal)
}
