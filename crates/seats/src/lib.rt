// Seats: the drawing at one and how many of its edits stand, the jobs that are open, and what undo, redo and a new edit make of a seat.
#![tactic(auto)]

ghost use Rattle.std.specs.Prelude.{◌≡◌, ◌<◌, ◌≤◌, length};
ghost use Rattle.journal.specs.Journal.{most_records, in_use, own};
ghost use Rattle.seats.specs.Seats.{closed_seat, open_seat, taken_back_count, edited_seat, undone_seat, redone_seat};
ghost use Rattle.seats.specs.Seats.{job_of, jobs_in, same_job, job_among, jobs_apart};

use board::PINS;
use drawing::{NO_PINS, Pin};
use edits::Edit;
use journal::{Journal, SEATS};

// A seat: whether it is open, and if so its drawing's job and pins, and how many of its edits stand.
// A flag and no Option of a drawing: the count of a closed seat is looked at too, since one that isn't 0 breaks the desk (sound_closed, of the crate sound).
#[derive(Clone, Copy)]
pub struct Seat {
    pub opened: bool,
    pub job: u16,
    pub pins: [Pin; PINS],
    pub standing: usize,
}

impl Seat {
    // A closed seat, as calls leave it.
    pub fn closed() -> Seat
        ensures { result ≡ closed_seat }
    {
        Seat {
            opened: false,
            job: 0,
            pins: NO_PINS,
            standing: 0,
        }
    }

    // A seat that is open for a job with these pins and no edits.
    pub fn open(job: u16, pins: [Pin; PINS]) -> Seat
        ensures { result ≡ open_seat job pins }
    {
        Seat {
            opened: true,
            job,
            pins,
            standing: 0,
        }
    }

    // The job of an open seat, 0 for a closed one: no Option, since a desk may come with an open seat of job 0, which the definition job_of takes as none too.
    #[tactic(auto, unfolding(crate::specs::Seats::job_of, basics::specs::Tests::choose))]
    fn open_job(&self) -> u16
        ensures { result ≡ job_of self.now }
    {
        if self.opened { self.job } else { 0 }
    }

    // How many of a seat's edits are taken back.
    // The journal and the seat's number are lent beside a seat, here and below: the desk has one journal for all seats, and a seat does not know its number.
    pub fn taken_back_count(&self, journal: &Journal, seat: usize) -> usize
        requires { journal.now.used ≤ most_records }
        ensures { result ≡ taken_back_count self.now (own seat (in_use journal.now)) }
    {
        journal.count_of(seat).saturating_sub(self.standing)
    }

    // A new edit: it is made, and stands.
    pub fn edit(&mut self, edit: Edit)
        requires { self.old.standing ≤ most_records }
        ensures { self.new ≡ edited_seat self.old edit }
    {
        edits::make(&mut self.pins, edit);
        self.standing += 1;
    }

    // Undo: the latest standing edit is taken back.
    pub fn undo(&mut self, journal: &Journal, seat: usize)
        requires { (journal.now.used ≤ most_records) × (0 < self.old.standing) × (self.old.standing ≤ length (own seat (in_use journal.now))) }
        ensures { self.new ≡ undone_seat self.old (own seat (in_use journal.now)) }
    {
        let taken_back = self.taken_back_count(journal, seat);
        let edit = journal.edit_of(seat, taken_back);
        edits::take_back(&mut self.pins, edit);
        self.standing -= 1;
    }

    // Redo: the most recently taken-back edit is made again.
    pub fn redo(&mut self, journal: &Journal, seat: usize)
        requires { (journal.now.used ≤ most_records) × (self.old.standing < length (own seat (in_use journal.now))) }
        ensures { self.new ≡ redone_seat self.old (own seat (in_use journal.now)) }
    {
        let taken_back = self.taken_back_count(journal, seat);
        let edit = journal.edit_of(seat, taken_back - 1);
        edits::make(&mut self.pins, edit);
        self.standing += 1;
    }
}

// The jobs of the seats.
pub fn jobs_of(seats: &[Seat; SEATS]) -> [u16; SEATS]
    ensures { result ≡ jobs_in seats.now }
{
    seats.each_ref().map(|seat| seat.open_job())
}

// Whether two jobs are the same, and not 0, which stands for a closed seat: no equality, so it is no derive.
#[tactic(auto, unfolding(crate::specs::Seats::same_job, basics::specs::Tests::both))]
fn same_job(a: u16, b: u16) -> bool
    ensures { result ≡ same_job a b }
{
    a != 0 && a == b
}

// Whether a job is one of these.
pub fn job_among(job: u16, jobs: &[u16]) -> bool
    ensures { result ≡ job_among job jobs.now }
{
    jobs.iter().any(|&other| same_job(job, other))
}

// Whether no job is repeated.
// A call of itself, as the definition no_two has it; the test of two spots in board is the only other of this form, and each is a match of two lines.
#[tactic(auto, unfolding(basics::specs::Tests::no_two, basics::specs::Tests::both))]
pub fn jobs_apart(jobs: &[u16]) -> bool
    ensures { result ≡ jobs_apart jobs.now }
{
    match jobs {
        [job, later @ ..] => !job_among(*job, later) && jobs_apart(later),
        [] => true,
    }
}
