// Writing the map of a drawing in either form into a lent buffer: the record of each pin, and how many bytes they are.
#![tactic(auto)]

ghost use Rattle.std.specs.Prelude.{◌≡◌, true, ◌++◌, ℕ, ◌+◌, ◌<◌, ◌≤◌, length, take};
ghost use Rattle.std.proofs.lemmas.List.Edits.{sets};
ghost use Rattle.basics.specs.Tests.{each_of};
ghost use Rattle.board.specs.Spots.{most_pins};
ghost use Rattle.drawing.specs.Pins.{is_net, has_net};
ghost use Rattle.pinmap.specs.Map.{record_size};
ghost use Rattle.writemap.specs.Record.{byte_for, part_bytes, record_bytes, pin_bytes};
ghost use Rattle.writemap.specs.Map.{map_of, write_map, buffer_after, written};

use board::PINS;
use drawing::{Held, Pin};
use pinmap::{Form, numbers};
use refusal::Refusal;

// Byte 3 of the record of a pin of this net, in a form.
#[tactic(auto, unfolding(drawing::specs::Pins::is_net, basics::specs::Tests::both))]
fn byte_for(form: Form, net: u32) -> u8
    requires { is_net net ≡ true }
    ensures { result ≡ byte_for form net }
{
    match form {
        Form::Old => 0,
        Form::New => net as u8,
    }
}

// Writes the part number of a pin into its record, in the new form.
#[tactic(auto, using(crate::proofs::Written::part_stored))]
fn write_part(form: Form, bytes: &mut [u8], part: u32)
    requires { length bytes.old ≡ record_size form }
    ensures { bytes.new ≡ take 12 bytes.old ++ part_bytes form part }
{
    match form {
        Form::Old => {}
        Form::New => numbers::write_bits(bytes, 12, part),
    }
}

// Writes the record of a pin into its own part of the map.
fn write_record(form: Form, bytes: &mut [u8], job: u16, pin: usize, held: Held)
    requires { (length bytes.old ≡ record_size form) × (pin < most_pins) × (is_net held.net ≡ true) }
    ensures { bytes.new ≡ record_bytes form job pin held }
{
    bytes[..2].copy_from_slice(&job.to_be_bytes());
    bytes[2] = pin as u8;
    bytes[3] = byte_for(form, held.net);
    numbers::write_number(bytes, 4, held.place.x);
    numbers::write_number(bytes, 8, held.place.y);
    write_part(form, bytes, held.part);
}

// How many bytes the map of a drawing has in a form, under any job.
fn bytes_needed(form: Form, pins: &[Pin; PINS]) -> usize
    ensures { (job : ℕ) → result ≡ length (map_of form job pins.now) }
{
    let there = pins.iter().filter(|pin| pin.is_some()).count();
    there * form.record_bytes()
}

// Writes what a map has for a pin from `at` on, and says where the next record begins.
#[tactic(auto, unfolding(crate::specs::Record::pin_bytes, drawing::specs::Pins::has_net), using(crate::proofs::Written::record_laws))]
fn write_pin(form: Form, buffer: &mut [u8], at: usize, job: u16, number: usize, pin: Pin) -> usize
    requires { (at + length (pin_bytes form job number pin) ≤ length buffer.old) × (number < most_pins) × (has_net pin ≡ true) }
    ensures value { result ≡ at + length (pin_bytes form job number pin) }
    ensures buffer_after { buffer.new ≡ sets buffer.old at (pin_bytes form job number pin) }
{
    match pin {
        None => at,
        Some(held) => {
            let end = at + form.record_bytes();
            write_record(form, &mut buffer[at..end], job, number, held);
            end
        }
    }
}

// Writes the records of a drawing's pins, where there is room for them.
fn write_records(form: Form, pins: &[Pin; PINS], job: u16, buffer: &mut [u8])
    requires { (length (map_of form job pins.now) ≤ length buffer.old) × (each_of has_net pins.now ≡ true) }
    ensures { buffer.new ≡ written (map_of form job pins.now) buffer.old }
{
    let mut at = 0;
    for (number, &pin) in pins.iter().enumerate() {
        at = write_pin(form, buffer, at, job, number, pin);
    }
}

// Writes the map of a drawing's pins in a form into a lent buffer, and says how many bytes were written; bytes after the last record stay as they were.
#[tactic(auto, using(crate::proofs::Written::room_laws))]
pub fn write_map(
    form: Form,
    pins: &[Pin; PINS],
    job: u16,
    buffer: &mut [u8],
) -> Result<usize, Refusal>
    requires { each_of has_net pins.now ≡ true }
    ensures value { result ≡ write_map form pins.now job buffer.old }
    ensures buffer_after { buffer.new ≡ buffer_after form pins.now job buffer.old }
{
    let bytes = bytes_needed(form, pins);
    if buffer.len() < bytes {
        return Err(Refusal::RoomTooSmall);
    }
    write_records(form, pins, job, buffer);
    Ok(bytes)
}
