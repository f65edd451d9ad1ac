// A record of a pin map: what it says in its own part of the map, what it gives its pin, and whether it is faulty.
// The form and a record's bytes are two parameters, as the documents and specs have them: a match over the form is plainer than a trait of two types.
#![tactic(auto)]

ghost use Rattle.std.specs.Prelude.{◌≡◌, ◌≤◌, length};
ghost use Rattle.refusal.specs.Rows.{first_of};
ghost use Rattle.pinmap.specs.Map.{record_size};
ghost use Rattle.records.specs.Record.{job_at, part_at, record_of, net_given, held_of, wrong_byte, faulty, record_rows};

use board::{PINS, Place, Spot, spots};
use drawing::Held;
use pinmap::{Form, numbers};
use refusal::{Refusal, Verdict};

// What a record says: its job, its pin number, its byte 3, its place, and its part number, 0 in the old form.
#[derive(Clone, Copy)]
pub struct MapRecord {
    pub job: u16,
    pub pin: usize,
    pub byte3: u8,
    pub place: Place,
    pub part: u32,
}

// The job in bytes 0 and 1, high byte first.
pub fn job_at(bytes: &[u8]) -> u16
    requires { 2 ≤ length bytes.now }
    ensures { result ≡ job_at bytes.now }
{
    u16::from_be_bytes([bytes[0], bytes[1]])
}

// The part number in a record of this form, 0 in the old.
fn part_at(form: Form, bytes: &[u8]) -> u32
    requires { length bytes.now ≡ record_size form }
    ensures { result ≡ part_at form bytes.now }
{
    match form {
        Form::Old => 0,
        Form::New => numbers::read_bits(bytes, 12),
    }
}

// What the record in its own part of the map says.
#[tactic(auto, unfolding(crate::specs::Record::record_of), using(pinmap::proofs::Sizes::size_range))]
pub fn read_record(form: Form, bytes: &[u8]) -> MapRecord
    requires { length bytes.now ≡ record_size form }
    ensures { result ≡ record_of form bytes.now }
{
    MapRecord {
        job: job_at(bytes),
        pin: usize::from(bytes[2]),
        byte3: bytes[3],
        place: Place {
            x: numbers::read_number(bytes, 4),
            y: numbers::read_number(bytes, 8),
        },
        part: part_at(form, bytes),
    }
}

// Whether byte 3 of a record of this form is not as it must be.
fn is_wrong_byte(form: Form, byte: u8) -> bool
    ensures { result ≡ wrong_byte form byte }
{
    match form {
        Form::Old => byte != 0,
        Form::New => !drawing::is_net(u32::from(byte)),
    }
}

// The net that a record with such a byte 3 gives its pin: 1 in the old form.
fn net_given(form: Form, byte: u8) -> u32
    ensures { result ≡ net_given form byte }
{
    match form {
        Form::Old => 1,
        Form::New => u32::from(byte),
    }
}

// What a record gives its pin to hold.
pub fn held_of(form: Form, given: MapRecord) -> Held
    ensures { result ≡ held_of form given }
{
    Held {
        place: given.place,
        net: net_given(form, given.byte3),
        part: given.part,
    }
}

// Whether a record is at fault otherwise than by its job. `next` is one more than the pin before, and the spots tell where the earlier records' pins stand.
#[tactic(auto, unfolding(crate::specs::Record::faulty, basics::specs::Tests::either))]
fn is_faulty(form: Form, given: MapRecord, next: usize, spots: &[Spot; PINS]) -> bool
    ensures { result ≡ faulty form next spots.now given }
{
    given.pin >= PINS
        || given.pin < next
        || is_wrong_byte(form, given.byte3)
        || !board::is_inside(given.place)
        || spots::too_near_any(spots, given.place)
}

// What a record comes to, as the one of this number after those that were read.
#[tactic(auto, unfolding(refusal::specs::Rows::first_of, basics::specs::Tests::choose))]
pub fn judge(
    form: Form,
    given: MapRecord,
    job: u16,
    number: usize,
    next: usize,
    spots: &[Spot; PINS],
) -> Verdict
    ensures { result ≡ first_of (record_rows form job number next spots.now given) }
{
    if given.job != job {
        return Err(Refusal::OtherJob(number));
    }
    if is_faulty(form, given, next, spots) {
        return Err(Refusal::FaultyRecord(number));
    }
    Ok(())
}
