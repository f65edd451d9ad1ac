// Rows of refusals: what a call finds at the seat that it names, and over that, for each call that changes a desk, its row in the order of documents 01 and 02; and what opening reads.
#![tactic(auto)]

ghost use Rattle.std.specs.Prelude.{◌≡◌, false, [], ◌∷◌, ◌++◌, ◌≤◌, leb};
ghost use Rattle.refusal.specs.Rows.{given, first_of};
ghost use Rattle.refusal.specs.declared.Refusal.TheVariants.{SeatAbove, DeskBroken};
ghost use Rattle.readmap.specs.Map.{map_rows, read_by};
ghost use Rattle.journal.specs.Journal.{most_seats, most_records, in_use, own};
ghost use Rattle.seats.specs.Seats.{taken_back_count, jobs_in};
ghost use Rattle.rows.specs.Refusals.{taking_rows, full_row, undoing_row, redoing_row};
ghost use Rattle.pinrows.specs.PinRows.{making_rows};
ghost use Rattle.rows.specs.Found.{found_in, naming_found};

use board::PINS;
use drawing::Pin;
use edits::stated::Making;
use journal::{Journal, RECORDS, SEATS};
use pinmap::Form;
use refusal::{Refusal, Verdict};
use seats::Seat;

// What a call finds: whether the desk is broken, the seat that it names, and that seat's state, a closed one's where there is no such seat.
// A flag beside the state, and no Result: opening asks other rows of the same three than other calls do, and `Desk::find` promises all three of any desk (`found_in`).
#[derive(Clone, Copy)]
pub struct Found {
    pub broken: bool,
    pub seat: usize,
    pub state: Seat,
}

// What a call that names a seat finds.
#[tactic(auto, unfolding(basics::specs::Tests::choose))]
pub fn find(seats: &[Seat; SEATS], journal: &Journal, seat: usize) -> Found
    ensures { result ≡ found_in seats.now journal.now seat }
{
    Found {
        broken: !sound::are_sound(seats, journal),
        seat,
        state: seats.get(seat).copied().unwrap_or(Seat::closed()),
    }
}

// Every call that names a seat: 28, 1.
#[tactic(auto, unfolding(refusal::specs::Rows::first_of, basics::specs::Tests::choose))]
fn turned_anywhere(found: &Found) -> Verdict
    ensures { result ≡ first_of (given found.now.broken DeskBroken ∷ given (leb most_seats found.now.seat) SeatAbove ∷ []) }
{
    if found.broken {
        return Err(Refusal::DeskBroken);
    }
    if SEATS <= found.seat {
        Err(Refusal::SeatAbove)
    } else {
        Ok(())
    }
}

// Every call naming a seat, but opening: 28, 1, 2. Closing no more than these.
#[tactic(auto, unfolding(refusal::specs::Rows::first_of, basics::specs::Tests::choose))]
pub fn turned_naming(found: &Found) -> Verdict
    ensures { result ≡ first_of (naming_found found.now) }
{
    turned_anywhere(found)?;
    if found.state.opened {
        Ok(())
    } else {
        Err(Refusal::NotOpen)
    }
}

// An edit of the seat that is found takes a record: 12.
#[tactic(auto, unfolding(refusal::specs::Rows::first_of, basics::specs::Tests::choose))]
fn turned_full(found: &Found, journal: &Journal) -> Verdict
    requires { journal.now.used ≤ most_records }
    ensures { result ≡ first_of (full_row journal.now.used (taken_back_count found.now.state (own found.now.seat (in_use journal.now)))) }
{
    let taken_back = found.state.taken_back_count(journal, found.seat);
    if journal.used - taken_back == RECORDS {
        Err(Refusal::JournalFull)
    } else {
        Ok(())
    }
}

// Making an edit: 28, 1, 2, then what the pins say, then 12.
pub fn turned_making(found: &Found, making: Making, journal: &Journal) -> Verdict
    requires { found.now.broken ≡ false → journal.now.used ≤ most_records }
    ensures { result ≡ first_of (naming_found found.now ++ (making_rows found.now.state.pins making ++ full_row journal.now.used (taken_back_count found.now.state (own found.now.seat (in_use journal.now))))) }
{
    turned_naming(found)?;
    pinrows::turned_edit(&found.state.pins, making)?;
    turned_full(found, journal)
}

// Undo: 28, 1, 2, 10.
#[tactic(auto, unfolding(refusal::specs::Rows::first_of, basics::specs::Tests::choose))]
pub fn turned_undoing(found: &Found) -> Verdict
    ensures { result ≡ first_of (naming_found found.now ++ undoing_row found.now.state.standing) }
{
    turned_naming(found)?;
    if found.state.standing == 0 {
        Err(Refusal::NothingStands)
    } else {
        Ok(())
    }
}

// Redo: 28, 1, 2, 11.
#[tactic(auto, unfolding(refusal::specs::Rows::first_of, basics::specs::Tests::choose))]
pub fn turned_redoing(found: &Found, journal: &Journal) -> Verdict
    requires { found.now.broken ≡ false → journal.now.used ≤ most_records }
    ensures { result ≡ first_of (naming_found found.now ++ redoing_row (taken_back_count found.now.state (own found.now.seat (in_use journal.now)))) }
{
    turned_naming(found)?;
    if found.state.taken_back_count(journal, found.seat) == 0 {
        Err(Refusal::NothingTakenBack)
    } else {
        Ok(())
    }
}

// Opening, up to the map: 28, 1, 3, 4, 5.
#[tactic(auto, unfolding(refusal::specs::Rows::first_of, basics::specs::Tests::choose))]
fn turned_taking(found: &Found, seats: &[Seat; SEATS], job: u16) -> Verdict
    ensures { result ≡ first_of (taking_rows found.now.broken found.now.seat found.now.state.opened job (jobs_in seats.now)) }
{
    turned_anywhere(found)?;
    if found.state.opened {
        return Err(Refusal::OpenAlready);
    }
    if job == 0 {
        return Err(Refusal::JobZero);
    }
    if seats::job_among(job, &seats::jobs_of(seats)) {
        Err(Refusal::JobElsewhere)
    } else {
        Ok(())
    }
}

// Opening with a map of a form: 28, 1, 3, 4, 5, then 13, 14 or 15 of the map; and the pins, where none applies.
pub fn map_read(
    found: &Found,
    seats: &[Seat; SEATS],
    job: u16,
    form: Form,
    map: &[u8],
) -> Result<[Pin; PINS], Refusal>
    ensures { result ≡ read_by (taking_rows found.now.broken found.now.seat found.now.state.opened job (jobs_in seats.now) ++ map_rows form map.now job) form map.now }
{
    turned_taking(found, seats, job)?;
    readmap::read_map(form, map, job)
}
