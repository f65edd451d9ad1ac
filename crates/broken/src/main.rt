// Tries 28 on desks broken by hand, one or more for each way that the rules list: every call on each of them, on the whole desk that they were made from, and on it with its unused parts changed.
#![tactic(auto)]

ghost use Rattle.std.specs.Prelude.{◌<◌};
ghost use Rattle.journal.specs.Journal.{most_records};

use board::{LIMIT, PINS, Place};
use copper::Favour;
use desk::{Answered, Desk};
use drawing::Held;
use edits::Edit;
use journal::{RECORDS, Record};
use laying::LEGS;
use loads::{Load, Sheet};
use pinmap::{Form, NEW_BYTES};
use refusal::Verdict;

// Seat 0 is open for job 7; pin 0 of net 1, placed at (20,20) with part number 5, stands; pin 1 of net 2, placed at (40,40), is taken back.
fn whole() -> Desk {
    let opened = Desk::empty().open(0, 7, Form::Old, &[]);
    let first = opened.desk.place(0, 0, Place { x: 20, y: 20 }, 1, 5);
    let second = first.desk.place(0, 1, Place { x: 40, y: 40 }, 2, 0);
    second.desk.undo(0).desk
}

// The job of seat 0 is 0.
fn job_zero() -> Desk {
    let mut d = whole();
    d.seats[0].job = 0;
    d
}

// Seat 1 is open too, for the job of seat 0.
fn job_repeated() -> Desk {
    let mut d = whole();
    d.seats[1].opened = true;
    d.seats[1].job = 7;
    d
}

// Seat 0 is closed, and its two records are still there.
fn closed_with_records() -> Desk {
    let mut d = whole();
    d.seats[0].opened = false;
    d
}

// What a pin of a net holds at a place, with part number 5.
fn holding(at: Place, net: u32) -> Held {
    Held {
        place: at,
        net,
        part: 5,
    }
}

// Pin 5 of seat 0, which no edit names, stands at this place and is of this net.
fn with_pin(at: Place, net: u32) -> Desk {
    let mut d = whole();
    d.seats[0].pins[5] = Some(holding(at, net));
    d
}

// A pin stands outside the board.
fn pin_outside() -> Desk {
    with_pin(Place { x: LIMIT + 1, y: 0 }, 1)
}

// Two pins of different nets stand too near each other.
fn pins_too_near() -> Desk {
    with_pin(Place { x: 39, y: 1 }, 2)
}

// A pin is of no net.
fn pin_of_net_0() -> Desk {
    with_pin(Place { x: 100, y: 0 }, 0)
}

// A pin is of net 9.
fn pin_of_net_9() -> Desk {
    with_pin(Place { x: 100, y: 0 }, 9)
}

// The record of this number holds another edit of seat 0: 0 is the one that stands, 1 the one that is taken back.
fn with_record(number: usize, edit: Edit) -> Desk
    requires { number < most_records }
{
    let mut d = whole();
    d.journal.records[number] = Record { seat: 0, edit };
    d
}

// The edit that stands is another.
fn with_standing(edit: Edit) -> Desk {
    with_record(0, edit)
}

// The edit that stands placed pin 0 elsewhere.
fn standing_elsewhere() -> Desk {
    with_standing(Edit::Placed(0, holding(Place { x: 100, y: 100 }, 1)))
}

// The edit that stands placed pin 0 in another net.
fn standing_of_another_net() -> Desk {
    with_standing(Edit::Placed(0, holding(Place { x: 20, y: 20 }, 2)))
}

// The edit that stands placed pin 0 with another part number.
fn standing_of_another_part() -> Desk {
    let mut held = holding(Place { x: 20, y: 20 }, 1);
    held.part = 6;
    with_standing(Edit::Placed(0, held))
}

// The edit that stands moved pin 0 to where it already stood.
fn standing_moved_nowhere() -> Desk {
    let at = Place { x: 20, y: 20 };
    with_standing(Edit::Moved(0, at, at))
}

// The edit that stands moved pin 0 from outside the board.
fn standing_from_outside() -> Desk {
    let from = Place {
        x: 0,
        y: -LIMIT - 1,
    };
    let to = Place { x: 20, y: 20 };
    with_standing(Edit::Moved(0, from, to))
}

// The edit that is taken back is another.
fn with_taken_back(edit: Edit) -> Desk {
    with_record(1, edit)
}

// The edit that is taken back places pin 1 too near to pin 0.
fn taken_back_near_a_pin() -> Desk {
    with_taken_back(Edit::Placed(1, holding(Place { x: 1, y: 39 }, 2)))
}

// The edit that is taken back removes pin 1, which is not there.
fn taken_back_of_no_pin() -> Desk {
    with_taken_back(Edit::Removed(1, holding(Place { x: 40, y: 40 }, 2)))
}

// The edit that is taken back places pin 32.
fn taken_back_of_pin_32() -> Desk {
    with_taken_back(Edit::Placed(32, holding(Place { x: 40, y: 40 }, 2)))
}

// The edit that is taken back places pin 1 in net 9.
fn taken_back_of_net_9() -> Desk {
    with_taken_back(Edit::Placed(1, holding(Place { x: 40, y: 40 }, 9)))
}

// The journal has 257 used records.
fn used_too_large() -> Desk {
    let mut d = whole();
    d.journal.used = RECORDS + 1;
    d
}

// Three edits of seat 0 stand, and it owns two records.
fn standing_too_many() -> Desk {
    let mut d = whole();
    d.seats[0].standing = 3;
    d
}

// The second record names seat 8.
fn record_of_seat_8() -> Desk {
    let mut d = whole();
    d.journal.records[1].seat = 8;
    d
}

// Seat 7 is closed, and counts a standing edit.
fn closed_with_a_count() -> Desk {
    let mut d = whole();
    d.seats[7].standing = 1;
    d
}

// A record past the used ones names seat 8, and a closed seat has the job of seat 0: neither breaks a desk.
fn unused_parts() -> Desk {
    let mut d = whole();
    d.journal.records[2].seat = 8;
    d.seats[7].job = 7;
    d
}

// Writes text to standard output.
fn say(text: &[u8]) {
    io::write_all(1, text);
}

// Writes the name of a call and the number that it was answered.
fn tell(call: &[u8], verdict: Verdict) {
    say(call);
    io::print_decimal(1, u64::from(refusal::tell(verdict).number));
}

// The same for what a call hands back.
fn tell_answer(call: &[u8], answered: Answered) {
    tell(call, answered.verdict);
}

// Makes each call that can change a desk on this one, and writes the answers.
fn try_changes(desk: Desk) {
    let at = Place { x: 60, y: 60 };
    tell_answer(b" open ", desk.open(1, 9, Form::New, &[]));
    tell_answer(b" close ", desk.close(0));
    tell_answer(b" place ", desk.place(0, 2, at, 1, 0));
    tell_answer(b" move ", desk.shift(0, 0, at));
    tell_answer(b" remove ", desk.remove(0, 0));
    tell_answer(b" undo ", desk.undo(0));
    tell_answer(b" redo ", desk.redo(0));
}

// Asks for the volts lost to net 1 at seat 0, with nothing to feed.
fn try_drops(desk: Desk) {
    let sheet = Sheet {
        volts: 12.0,
        ohms: 0.001,
    };
    let dropped = asked::drops(desk, 0, 1, &[Load::Spare; PINS], sheet);
    tell(b" drops ", dropped.answer.verdict);
}

// Wires net 9 at seat 0, where 28 comes before 21.
fn try_net_9(desk: Desk) {
    let wired = asked::wire(desk, 0, 9, LEGS, Favour::Unsaid);
    tell(b" wire net 9 ", wired.answer.wiring.verdict);
}

// Writes seat 0, wires and mills its net 1, asks for that net's volts lost, and undoes at seat 8, where 28 comes before 1.
fn try_others(desk: Desk) {
    let mut buffer = [0u8; PINS * NEW_BYTES];
    let written = asked::write(desk, 0, &mut buffer);
    tell(b" write ", written.answer.map(|_| ()));
    let wired = asked::wire(desk, 0, 1, LEGS, Favour::Unsaid);
    tell(b" wire ", wired.answer.wiring.verdict);
    try_net_9(desk);
    let milled = asked::mill(desk, 0, 1, LEGS, Favour::Unsaid);
    tell(b" mill ", milled.answer.milling.verdict);
    try_drops(desk);
    tell_answer(b" undo at 8 ", desk.undo(8));
}

// Makes every call on this desk, and writes a line with the answers.
fn try_calls(name: &[u8], desk: Desk) {
    say(name);
    try_changes(desk);
    try_others(desk);
    say(b"\n");
}

// Desks that are not broken: 28 is not answered.
fn try_whole() {
    try_calls(b"whole:", whole());
    try_calls(b"whole, unused parts changed:", unused_parts());
}

// Broken at a seat.
fn try_seats() {
    try_calls(b"job 0:", job_zero());
    try_calls(b"job repeated:", job_repeated());
    try_calls(b"closed seat with records:", closed_with_records());
    try_calls(b"pin outside:", pin_outside());
    try_calls(b"pins too near:", pins_too_near());
    try_calls(b"pin of net 0:", pin_of_net_0());
    try_calls(b"pin of net 9:", pin_of_net_9());
}

// Broken by an edit that could not have been made.
fn try_edits() {
    try_calls(b"standing edit, placed elsewhere:", standing_elsewhere());
    try_calls(b"standing edit, of another net:", standing_of_another_net());
    try_calls(
        b"standing edit, of another part number:",
        standing_of_another_part(),
    );
    try_calls(b"standing edit, moved nowhere:", standing_moved_nowhere());
    try_calls(
        b"standing edit, moved from outside:",
        standing_from_outside(),
    );
    try_calls(b"taken-back edit, near a pin:", taken_back_near_a_pin());
    try_calls(
        b"taken-back edit, of a pin not there:",
        taken_back_of_no_pin(),
    );
    try_calls(b"taken-back edit, of pin 32:", taken_back_of_pin_32());
    try_calls(b"taken-back edit, of net 9:", taken_back_of_net_9());
}

// Broken by a number kept beside these.
fn try_numbers() {
    try_calls(b"used count 257:", used_too_large());
    try_calls(b"standing more than owned:", standing_too_many());
    try_calls(b"record of seat 8:", record_of_seat_8());
    try_calls(b"closed seat with a standing edit:", closed_with_a_count());
}

// Tries every call on the whole desks, then on the broken ones.
fn main() {
    try_whole();
    try_seats();
    try_edits();
    try_numbers();
}
