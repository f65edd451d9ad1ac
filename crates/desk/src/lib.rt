// The desk: its seats and its journal, whether it is broken, and the calls that change it: each takes it as it stands and hands back the desk that follows.
#![tactic(auto)]

ghost use Rattle.std.specs.Prelude.{◌≡◌};
ghost use Rattle.edits.specs.declared.stated.Making.TheVariants.{Placing, Moving, Removing};
ghost use Rattle.drawing.specs.Pins.{holding};
ghost use Rattle.rows.specs.Calls.{opening, closing, making, undoing, redoing};
ghost use Rattle.rows.specs.Found.{found_in};
ghost use Rattle.desk.specs.Desk.{empty_desk, sound, handed_back, step};

use board::Place;
use drawing::Held;
use edits::stated::Making;
use journal::{Journal, Record, SEATS};
use pinmap::Form;
use refusal::Verdict;
use rows::Found;
use seats::Seat;

// A desk: its seats, and the journal that they share.
#[derive(Clone, Copy)]
pub struct Desk {
    pub seats: [Seat; SEATS],
    pub journal: Journal,
}

// What a call hands back: the desk that follows, and the answer.
// A verdict beside the desk, and no Result: a refused call hands back its desk too, as it was (`step`).
#[derive(Clone, Copy)]
pub struct Answered {
    pub desk: Desk,
    pub verdict: Verdict,
}

impl Desk {
    // The empty desk: every seat closed, no record in use.
    #[tactic(auto, unfolding(crate::specs::Desk::empty_desk))]
    pub fn empty() -> Desk
        ensures { result ≡ empty_desk }
    {
        Desk {
            seats: [Seat::closed(); SEATS],
            journal: Journal::empty(),
        }
    }

    // Whether the desk is not broken.
    #[tactic(auto, unfolding(crate::specs::Desk::sound))]
    pub fn is_sound(&self) -> bool
        ensures { result ≡ sound self.now }
    {
        sound::are_sound(&self.seats, &self.journal)
    }

    // What a call finds at the seat that it names.
    pub fn find(&self, seat: usize) -> Found
        ensures { result ≡ found_in self.now.seats self.now.journal seat }
    {
        rows::find(&self.seats, &self.journal, seat)
    }
}

// What each call does, in place: it leaves the desk that follows, or, where one of the refusals turns it away, the desk as it was.
impl Desk {
    // Opens `seat` for a job with the drawing of a pin map of a form, or says why not.
    fn try_open(&mut self, seat: usize, job: u16, form: Form, map: &[u8]) -> Verdict
        ensures { handed_back self.new result ≡ step self.old (opening seat job form map.now) }
    {
        let pins = rows::map_read(&self.find(seat), &self.seats, job, form, map)?;
        self.seats[seat] = Seat::open(job, pins);
        Ok(())
    }

    // Closes `seat` and frees all of its records, or says why not.
    fn try_close(&mut self, seat: usize) -> Verdict
        ensures { handed_back self.new result ≡ step self.old (closing seat) }
    {
        rows::turned_naming(&self.find(seat))?;
        self.journal.compact(seat, 0);
        self.seats[seat] = Seat::closed();
        Ok(())
    }

    // Makes the edit that a call states on the drawing at `seat`, or says why not.
    fn try_make(&mut self, seat: usize, stated: Making) -> Verdict
        ensures { handed_back self.new result ≡ step self.old (making seat stated) }
    {
        let found = self.find(seat);
        rows::turned_making(&found, stated, &self.journal)?;
        let edit = edits::stated::edit_of(&found.state.pins, stated);
        self.journal.compact(seat, found.state.standing);
        self.journal.append(Record { seat, edit });
        self.seats[seat].edit(edit);
        Ok(())
    }

    // Takes back the latest standing edit of the drawing at `seat`, or says why not.
    fn try_undo(&mut self, seat: usize) -> Verdict
        ensures { handed_back self.new result ≡ step self.old (undoing seat) }
    {
        rows::turned_undoing(&self.find(seat))?;
        self.seats[seat].undo(&self.journal, seat);
        Ok(())
    }

    // Makes the most recently taken-back edit of the drawing at `seat` again, or says why not.
    fn try_redo(&mut self, seat: usize) -> Verdict
        ensures { handed_back self.new result ≡ step self.old (redoing seat) }
    {
        rows::turned_redoing(&self.find(seat), &self.journal)?;
        self.seats[seat].redo(&self.journal, seat);
        Ok(())
    }
}

// The calls. Each takes the desk as it stands and hands back the desk that follows, or the same desk with the number of a refusal.
// What a call states are parameters of their own, as a host states them; and each body says what it hands back: a function for that would be no shorter.
impl Desk {
    // Opens `seat` for a job with the drawing of a pin map of a form, or says why not.
    pub fn open(mut self, seat: usize, job: u16, form: Form, map: &[u8]) -> Answered
        ensures { result ≡ step self (opening seat job form map.now) }
    {
        let verdict = self.try_open(seat, job, form, map);
        Answered {
            desk: self,
            verdict,
        }
    }

    // Closes `seat` and frees all of its records, or says why not.
    pub fn close(mut self, seat: usize) -> Answered
        ensures { result ≡ step self (closing seat) }
    {
        let verdict = self.try_close(seat);
        Answered {
            desk: self,
            verdict,
        }
    }

    // Places a pin of the drawing at `seat`, of a net and with a part number, or says why not.
    pub fn place(mut self, seat: usize, pin: usize, at: Place, net: u32, part: u32) -> Answered
        ensures { result ≡ step self (making seat (Placing pin (holding at net part))) }
    {
        let held = Held {
            place: at,
            net,
            part,
        };
        let verdict = self.try_make(seat, Making::Placing(pin, held));
        Answered {
            desk: self,
            verdict,
        }
    }

    // Moves a pin of the drawing at `seat`, or says why not. (`move` is a word of the language.)
    pub fn shift(mut self, seat: usize, pin: usize, to: Place) -> Answered
        ensures { result ≡ step self (making seat (Moving pin to)) }
    {
        let verdict = self.try_make(seat, Making::Moving(pin, to));
        Answered {
            desk: self,
            verdict,
        }
    }

    // Removes a pin of the drawing at `seat`, or says why not.
    pub fn remove(mut self, seat: usize, pin: usize) -> Answered
        ensures { result ≡ step self (making seat (Removing pin)) }
    {
        let verdict = self.try_make(seat, Making::Removing(pin));
        Answered {
            desk: self,
            verdict,
        }
    }

    // Takes back the latest standing edit of the drawing at `seat`, or says why not. No other drawing changes.
    pub fn undo(mut self, seat: usize) -> Answered
        ensures { result ≡ step self (undoing seat) }
    {
        let verdict = self.try_undo(seat);
        Answered {
            desk: self,
            verdict,
        }
    }

    // Makes the most recently taken-back edit of the drawing at `seat` again, or says why not. No other drawing changes.
    pub fn redo(mut self, seat: usize) -> Answered
        ensures { result ≡ step self (redoing seat) }
    {
        let verdict = self.try_redo(seat);
        Answered {
            desk: self,
            verdict,
        }
    }
}
