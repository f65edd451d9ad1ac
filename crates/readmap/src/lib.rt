// Reading a pin map in either form under a job: its length, then record after record, up to the first faulty one.
#![tactic(auto)]

ghost use Rattle.std.specs.Prelude.{◌≡◌, false, ◌<◌, length, IfOk};
ghost use Rattle.board.specs.Spots.{most_pins};
ghost use Rattle.refusal.specs.Rows.{first_of, granted};
ghost use Rattle.pinmap.specs.Map.{record_size};
ghost use Rattle.records.specs.Record.{record_of, record_rows};
ghost use Rattle.readmap.specs.Map.{wrong_length, under_rows, read_by, read_map};

use board::{PINS, Spot};
use drawing::{NO_PINS, Pin};
use pinmap::Form;
use records::MapRecord;
use refusal::Refusal;

// Whether a map has a length that no map of this form has.
#[tactic(auto, unfolding(crate::specs::Map::wrong_length, basics::specs::Tests::either), using(pinmap::proofs::Sizes::size_range))]
fn is_wrong_length(form: Form, map: &[u8]) -> bool
    ensures { result ≡ wrong_length form map.now }
{
    map.len() > form.most_bytes() || !map.len().is_multiple_of(form.record_bytes())
}

// What the record in its own part of the map says, as the one of this number after those that were read, or why it is turned away.
// Five values tell what was read so far, as record_rows takes them: a struct of them would be taken apart for each rule.
#[tactic(auto, using(crate::proofs::Progress::pin_low))]
fn judged_record(
    form: Form,
    bytes: &[u8],
    job: u16,
    number: usize,
    next: usize,
    spots: &[Spot; PINS],
) -> Result<MapRecord, Refusal>
    requires { length bytes.now ≡ record_size form }
    ensures value { result ≡ granted (first_of (record_rows form job number next spots.now (record_of form bytes.now))) (record_of form bytes.now) }
    ensures pin { IfOk result (λ given. given.pin < most_pins) }
{
    let given = records::read_record(form, bytes);
    records::judge(form, given, job, number, next, spots)?;
    Ok(given)
}

// Reads the records of a map of a right length one after the other, up to the first faulty one.
fn read_records(form: Form, map: &[u8], job: u16) -> Result<[Pin; PINS], Refusal>
    requires { wrong_length form map.now ≡ false }
    ensures { result ≡ read_map form map.now job }
{
    let mut pins = NO_PINS;
    let mut spots = [None; PINS];
    let mut next = 0;
    for (number, bytes) in map.chunks_exact(form.record_bytes()).enumerate() {
        let given = judged_record(form, bytes, job, number, next, &spots)?;
        pins[given.pin] = Some(records::held_of(form, given));
        spots[given.pin] = Some(given.place);
        next = given.pin + 1;
    }
    Ok(pins)
}

// Reads a map of a form under a job: the pins of its drawing, or why it is turned away.
#[tactic(auto, using(crate::proofs::Judging::turned_away))]
pub fn read_map(form: Form, map: &[u8], job: u16) -> Result<[Pin; PINS], Refusal>
    ensures { result ≡ read_map form map.now job }
{
    if is_wrong_length(form, map) {
        return Err(Refusal::MapLength);
    }
    read_records(form, map, job)
}

// Reads a map of a form where nothing but the map and its job is looked at: 4, then 13, 14 or 15.
#[tactic(auto, using(crate::proofs::Judging::under_zero, crate::proofs::Judging::under_job))]
pub fn read_under(form: Form, map: &[u8], job: u16) -> Result<[Pin; PINS], Refusal>
    ensures { result ≡ read_by (under_rows form map.now job) form map.now }
{
    if job == 0 {
        return Err(Refusal::JobZero);
    }
    read_map(form, map, job)
}
