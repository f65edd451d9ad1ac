// Answers printed into a lent buffer, a line each: from its start on, with the bytes printed told, or from a position on, with the position after them told.
// The lent buffer is a parameter of its own, for the reason that text/put has.
#![tactic(auto)]

ghost use Rattle.std.specs.Prelude.{◌≡◌, ◌+◌, ◌*◌, ◌≤◌};
ghost use lib.ListN.{length};
ghost use Rattle.std.proofs.lemmas.List.Edits.{sets};
ghost use Rattle.board.specs.Spots.{most_pins};
ghost use Rattle.text.specs.Text.{text_for_each, over, most_room, answer_bytes, Holds};
ghost use Rattle.printed.specs.Answers.{most_line_bytes, most_run_bytes, most_leg_bytes, most_pin_bytes, most_word_bytes, most_carried_bytes, most_hex_bytes, most_drop_bytes, hex_part, carried_text, told_line, verdict_line, written_line, wired_line, milled_line, job_line, run_line, leg_line, closed_line, drawing_line, pin_line, drop_text, lost_line, not_a_call_line};

use board::{PINS, Place};
use drops::Lost;
use refusal::{Told, Verdict};
use text::put::{put, put_decimal, put_field, put_float, put_hex, put_place};
use text::{ANSWER_BYTES, MOST_ROOM};

// What is not a call: its line, counted from 1.
pub fn print_not_a_call(line: usize, out: &mut [u8; ANSWER_BYTES]) -> usize
    ensures { ((result ≡ length (not_a_call_line line)) × (result ≤ most_line_bytes)) × (out.new ≡ over (not_a_call_line line) out.old) }
{
    let next = put_field(out, 0, b"line ", line);
    put(out, next, b": not a call\n")
}

// A wiring: its length, runs and legs, and the choices weighed. Three lines have four numbers each, this one, that of a job and that of a drawing: one function
// for them would take four labels and four numbers, and its contract would have to say how long the labels may be, which is longer than five calls.
pub fn print_wired(
    length: usize,
    runs: usize,
    legs: usize,
    weighed: usize,
    out: &mut [u8; ANSWER_BYTES],
) -> usize
    ensures { ((result ≡ lib.ListN.length (wired_line length runs legs weighed)) × (result ≤ most_line_bytes)) × (out.new ≡ over (wired_line length runs legs weighed) out.old) }
{
    let one = put_field(out, 0, b"0 length ", length);
    let two = put_field(out, one, b" runs ", runs);
    let three = put_field(out, two, b" legs ", legs);
    let four = put_field(out, three, b" weighed ", weighed);
    put(out, four, b"\n")
}

// An accepted milling: how many segments.
pub fn print_milled(segments: usize, out: &mut [u8; ANSWER_BYTES]) -> usize
    ensures { ((result ≡ length (milled_line segments)) × (result ≤ most_line_bytes)) × (out.new ≡ over (milled_line segments) out.old) }
{
    let next = put_field(out, 0, b"0 segments ", segments);
    put(out, next, b"\n")
}

// The wiring of a map: its job, length and runs, and the choices weighed.
pub fn print_job(
    job: usize,
    length: usize,
    runs: usize,
    weighed: usize,
    out: &mut [u8; ANSWER_BYTES],
) -> usize
    ensures { ((result ≡ lib.ListN.length (job_line job length runs weighed)) × (result ≤ most_line_bytes)) × (out.new ≡ over (job_line job length runs weighed) out.old) }
{
    let one = put_field(out, 0, b"job ", job);
    let two = put_field(out, one, b" length ", length);
    let three = put_field(out, two, b" runs ", runs);
    let four = put_field(out, three, b" weighed ", weighed);
    put(out, four, b"\n")
}

// A run, from a position on: its ends, and the word of its shape.
pub fn print_run(
    near: usize,
    far: usize,
    shape: &[u8],
    out: &mut [u8; ANSWER_BYTES],
    at: usize,
) -> usize
    requires { (length shape.now ≤ most_word_bytes) × (at + most_run_bytes ≤ answer_bytes) }
    ensures value { (result ≡ at + length (run_line near far shape.now)) × (result ≤ at + most_run_bytes) }
    ensures out_after { out.new ≡ sets out.old at (run_line near far shape.now) }
{
    let one = put_decimal(out, at, near);
    let two = put_field(out, one, b" ", far);
    let three = put(out, two, b" ");
    let four = put(out, three, shape);
    put(out, four, b"\n")
}

// A leg or a segment, from a position on: its word, and its two ends.
pub fn print_leg(word: &[u8], a: Place, b: Place, out: &mut [u8; ANSWER_BYTES], at: usize) -> usize
    requires { (length word.now ≤ most_word_bytes) × (at + most_leg_bytes ≤ answer_bytes) }
    ensures value { (result ≡ at + length (leg_line word.now a b)) × (result ≤ at + most_leg_bytes) }
    ensures out_after { out.new ≡ sets out.old at (leg_line word.now a b) }
{
    let one = put_place(out, at, word, a);
    let two = put_place(out, one, b" ", b);
    put(out, two, b"\n")
}

// A seat that is not open.
pub fn print_closed(out: &mut [u8; ANSWER_BYTES]) -> usize
    ensures { ((result ≡ length closed_line) × (result ≤ most_line_bytes)) × (out.new ≡ over closed_line out.old) }
{
    put(out, 0, b"closed\n")
}

// A drawing: its job, and how many pins, standing and taken-back edits it has.
pub fn print_drawing(
    job: usize,
    pins: usize,
    standing: usize,
    taken: usize,
    out: &mut [u8; ANSWER_BYTES],
) -> usize
    ensures { ((result ≡ length (drawing_line job pins standing taken)) × (result ≤ most_line_bytes)) × (out.new ≡ over (drawing_line job pins standing taken) out.old) }
{
    let one = put_field(out, 0, b"job ", job);
    let two = put_field(out, one, b" pins ", pins);
    let three = put_field(out, two, b" standing ", standing);
    let four = put_field(out, three, b" taken ", taken);
    put(out, four, b"\n")
}

// A pin of a drawing, its place, its net and its part, from a position on.
pub fn print_pin(
    pin: usize,
    place: Place,
    net: u32,
    part: u32,
    out: &mut [u8; ANSWER_BYTES],
    at: usize,
) -> usize
    requires { at + most_pin_bytes ≤ answer_bytes }
    ensures value { (result ≡ at + length (pin_line pin place net part)) × (result ≤ at + most_pin_bytes) }
    ensures out_after { out.new ≡ sets out.old at (pin_line pin place net part) }
{
    let one = put_field(out, at, b"pin ", pin);
    let two = put_place(out, one, b" ", place);
    // Casts: no From makes a usize of a u32.
    let three = put_field(out, two, b" ", net as usize);
    let four = put_field(out, three, b" ", part as usize);
    put(out, four, b"\n")
}

// What a refusal carries.
#[tactic(auto, unfolding(crate::specs::Answers::carried_text))]
fn put_carried(out: &mut [u8; ANSWER_BYTES], at: usize, carried: Option<usize>) -> usize
    requires { at + most_carried_bytes ≤ answer_bytes }
    ensures value { (result ≡ at + length (carried_text carried)) × (result ≤ at + most_carried_bytes) }
    ensures out_after { out.new ≡ sets out.old at (carried_text carried) }
{
    match carried {
        None => at,
        Some(record) => put_field(out, at, b" record ", record),
    }
}

// What a host is told of a call: accepted, or the number of its refusal and what it carries.
fn print_told(told: Told, out: &mut [u8; ANSWER_BYTES]) -> usize
    ensures { Holds most_line_bytes (told_line told) out.old result out.new }
{
    // By its number: 0 is what a host is told of a call that is accepted.
    if told.number == 0 {
        return put(out, 0, b"0\n");
    }
    let one = put_field(out, 0, b"refused ", told.number as usize);
    let two = put_carried(out, one, told.carried);
    put(out, two, b"\n")
}

// The verdict of a call.
pub fn print_verdict(verdict: Verdict, out: &mut [u8; ANSWER_BYTES]) -> usize
    ensures { ((result ≡ length (verdict_line verdict)) × (result ≤ most_line_bytes)) × (out.new ≡ over (verdict_line verdict) out.old) }
{
    print_told(refusal::tell(verdict), out)
}

// Puts a space and the bytes in hex, or nothing where there are none.
fn put_lent(out: &mut [u8; ANSWER_BYTES], at: usize, bytes: &[u8]) -> usize
    requires { (at + most_hex_bytes ≤ answer_bytes) × (length bytes.now ≤ most_room) }
    ensures value { (result ≡ at + length (hex_part bytes.now)) × (result ≤ at + most_hex_bytes) }
    ensures out_after { out.new ≡ sets out.old at (hex_part bytes.now) }
{
    if bytes.len() == 0 {
        return at;
    }
    let next = put(out, at, b" ");
    put_hex(out, next, bytes)
}

// An accepted writing: the bytes written, and the lent buffer after the call, of which at most 1,024 bytes are printed.
pub fn print_written(bytes: usize, buffer: &[u8], out: &mut [u8; ANSWER_BYTES]) -> usize
    ensures { ((result ≡ length (written_line bytes buffer.now)) × (result ≤ answer_bytes)) × (out.new ≡ over (written_line bytes buffer.now) out.old) }
{
    let shown = buffer.len().min(MOST_ROOM);
    let one = put_field(out, 0, b"0 ", bytes);
    let two = put_lent(out, one, &buffer[..shown]);
    put(out, two, b"\n")
}

// A drop, from a position on.
fn put_drop(drop: f32, out: &mut [u8; ANSWER_BYTES], at: usize) -> usize
    requires { at + most_drop_bytes ≤ answer_bytes }
    ensures value { (result ≡ at + length (drop_text drop)) × (result ≤ at + most_drop_bytes) }
    ensures out_after { out.new ≡ sets out.old at (drop_text drop) }
{
    let next = put(out, at, b" ");
    put_float(out, next, drop)
}

// The drops of all pin numbers, from a position on.
fn put_drops(drops: &[f32; PINS], out: &mut [u8; ANSWER_BYTES], at: usize) -> usize
    requires { at + most_pins * most_drop_bytes ≤ answer_bytes }
    ensures value { (result ≡ at + length (text_for_each drop_text drops.now)) × (result ≤ at + most_pins * most_drop_bytes) }
    ensures out_after { out.new ≡ sets out.old at (text_for_each drop_text drops.now) }
{
    let mut next = at;
    for &drop in drops {
        next = put_drop(drop, out, next);
    }
    next
}

// Drops: each of them, by pin number, or the refusal.
pub fn print_drops(lost: Lost, out: &mut [u8; ANSWER_BYTES]) -> usize
    ensures { ((result ≡ length (lost_line lost)) × (result ≤ answer_bytes)) × (out.new ≡ over (lost_line lost) out.old) }
{
    if lost.verdict.is_err() {
        return print_verdict(lost.verdict, out);
    }
    let one = put(out, 0, b"0");
    let two = put_drops(&lost.drops, out, one);
    put(out, two, b"\n")
}
