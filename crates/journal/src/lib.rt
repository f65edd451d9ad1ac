// The journal: the records of all seats, counting and finding a seat's own, dropping and appending.
#![tactic(auto)]

ghost use Rattle.std.specs.Prelude.{◌≡◌, ◌<◌, ◌≤◌, reverse, get_or, length};
ghost use Rattle.journal.specs.Journal.{most_records, no_edit, in_use, own, counts_of, kept, compacted, empty_journal, appended, seated};

use board::MIDDLE;
use drawing::Held;
use edits::Edit;

// All seats share a journal of this many records.
pub const RECORDS: usize = 256;

// Seats are numbered from 0 to one less than this.
pub const SEATS: usize = 8;

// A journal record: its seat and one edit of the drawing there.
#[derive(Clone, Copy)]
pub struct Record {
    pub seat: usize,
    pub edit: Edit,
}

// The edit of a record that is not in use.
const NO_EDIT: Edit = Edit::Placed(
    0,
    Held {
        place: MIDDLE,
        net: 0,
        part: 0,
    },
);

// A record that is not in use.
const BLANK: Record = Record {
    seat: 0,
    edit: NO_EDIT,
};

// The journal: its records, and how many of them are in use, those that come first.
// An array with a count beside it and no Vec, since no heap is used; the count may say anything, since a desk may come broken, so no invariant ties the two.
#[derive(Clone, Copy)]
pub struct Journal {
    pub records: [Record; RECORDS],
    pub used: usize,
}

impl Journal {
    // The journal of which no record is in use.
    pub fn empty() -> Journal
        ensures { result ≡ empty_journal }
    {
        Journal {
            records: [BLANK; RECORDS],
            used: 0,
        }
    }

    // The records in use.
    pub fn in_use(&self) -> &[Record]
        requires { self.now.used ≤ most_records }
        ensures { result.now ≡ in_use self.now }
    {
        &self.records[..self.used]
    }

    // How many of the records in use are the seat's.
    pub fn count_of(&self, seat: usize) -> usize
        requires { self.now.used ≤ most_records }
        ensures { result ≡ length (own seat (in_use self.now)) }
    {
        self.in_use()
            .iter()
            .filter(|seen| seen.seat == seat)
            .count()
    }

    // How many of the records in use each seat owns, in one pass over them.
    #[tactic(auto, using(crate::proofs::Counts::passing))]
    pub fn counts(&self) -> [usize; SEATS]
        requires { self.now.used ≤ most_records }
        ensures { result ≡ counts_of (in_use self.now) }
    {
        let mut counts = [0; SEATS];
        for record in self.in_use() {
            if record.seat < SEATS {
                counts[record.seat] += 1;
            }
        }
        counts
    }

    // The seat's edit that has `later` of its edits after it: with none, the newest of that seat.
    pub fn edit_of(&self, seat: usize, later: usize) -> Edit
        requires { self.now.used ≤ most_records }
        ensures { result ≡ get_or (reverse (own seat (in_use self.now))) later no_edit }
    {
        self.in_use()
            .iter()
            .rev()
            .filter(|sought| sought.seat == seat)
            .map(|sought| sought.edit)
            .nth(later)
            .unwrap_or(NO_EDIT)
    }

    // Frees the seat's records beyond its first `keep`: those behind move up, and blank records follow.
    pub fn compact(&mut self, seat: usize, keep: usize)
        requires { self.old.used ≤ most_records }
        ensures { self.new ≡ compacted (kept seat keep (in_use self.old)) }
    {
        let mut left = keep;
        let mut written = 0;
        // By number: the loop writes to the list that it reads.
        for read in 0..self.used {
            let record = self.records[read];
            if record.seat == seat {
                if 0 < left {
                    left -= 1;
                } else {
                    continue;
                }
            }
            self.records[written] = record;
            written += 1;
        }
        self.records[written..].fill(BLANK);
        self.used = written;
    }

    // Takes the latest record after those in use.
    pub fn append(&mut self, latest: Record)
        requires { self.old.used < most_records }
        ensures { self.new ≡ appended self.old latest }
    {
        self.records[self.used] = latest;
        self.used += 1;
    }

    // Whether the seat of every record in use is one of the desk's.
    pub fn all_seated(&self) -> bool
        requires { self.now.used ≤ most_records }
        ensures { result ≡ seated (in_use self.now) }
    {
        self.in_use().iter().all(|record| record.seat < SEATS)
    }
}
