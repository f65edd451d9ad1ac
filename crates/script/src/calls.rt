// What the words of a line say: a small reader for each call.
ghost use Rattle.std.specs.Prelude.{◌≡◌, ◌≤◌, IfSome, unwrap_or};
ghost use Rattle.text.specs.Words.{words_of};
ghost use Rattle.text.specs.Numbers.{most_number, value_of, is_number};
ghost use Rattle.basics.specs.Tests.{both, choose};
ghost use Rattle.script.specs.Said.{number_in, place_in, is_seat_alone, is_pair, is_placing, place_call, favour_in, ends_in_favour, is_form, form_in, open_call, moving_call, is_lending, bare_call, drops_call, call_in, is_skipped as skipped};

use crate::Said;
use crate::load_words::is_loads;
use board::Place;
use copper::Favour;
use pinmap::Form;
use std::str;
use text::MOST_ROOM;
use text::numbers::{MOST, coordinate, is_bits, is_list, is_map, number};
use text::words::{count_words, word};

// The most legs or segments that a call lends.
const MOST_LEGS_LENT: usize = 64;

// The largest job.
const MOST_JOB: usize = 65535;

// NAME SEAT
#[tactic(auto, using(crate::proofs::Asking::readings), unfolding(crate::specs::Said::is_seat_alone))]
fn seat_alone(text: &[u8]) -> Option<usize>
    ensures { result ≡ choose (is_seat_alone (words_of text.now)) (Some (number_in 1 (words_of text.now))) None }
{
    if count_words(text) != 2 {
        return None;
    }
    number(word(text, 1), MOST)
}

// Two words read as numbers, the first from 0 to `high`, the second from 0 to `top`.
#[tactic(auto, using(crate::proofs::Asking::readings))]
fn two_numbers(a: &[u8], high: usize, b: &[u8], top: usize) -> Option<(usize, usize)>
    requires { (high ≤ most_number) × (top ≤ most_number) }
    ensures value { result ≡ choose (both (is_number high a.now) (is_number top b.now)) (Some (value_of a.now, value_of b.now)) None }
    ensures within { IfSome result (λ p. (p.0 ≤ high) × (p.1 ≤ top)) }
{
    Some((number(a, high)?, number(b, top)?))
}

// NAME SEAT and one number more, from 0 to `top`.
#[tactic(auto, using(crate::proofs::Asking::readings), unfolding(crate::specs::Said::is_pair))]
fn pair(text: &[u8], top: usize) -> Option<(usize, usize)>
    requires { top ≤ most_number }
    ensures { result ≡ choose (is_pair top (words_of text.now)) (Some (number_in 1 (words_of text.now), number_in 2 (words_of text.now))) None }
{
    if count_words(text) != 3 {
        return None;
    }
    two_numbers(word(text, 1), MOST, word(text, 2), top)
}

// So many words, of which those after the name are SEAT PIN X Y
#[tactic(auto, using(crate::proofs::Asking::readings_signed), unfolding(crate::specs::Said::is_placing))]
fn placing(text: &[u8], words: usize) -> Option<(usize, usize, Place)>
    ensures { result ≡ choose (is_placing words (words_of text.now)) (Some (number_in 1 (words_of text.now), number_in 2 (words_of text.now), place_in (words_of text.now))) None }
{
    if count_words(text) != words {
        return None;
    }
    let (seat, pin) = two_numbers(word(text, 1), MOST, word(text, 2), MOST)?;
    let x = coordinate(word(text, 3))?;
    let y = coordinate(word(text, 4))?;
    Some((seat, pin, Place { x, y }))
}

// FAVOUR: the shape that a word names; where it names none, nothing is said.
#[tactic(auto, using(crate::proofs::Asking::readings), unfolding(crate::specs::Said::favour_in))]
pub(crate) fn favour_in(name: &[u8]) -> Favour
    ensures { result ≡ favour_in name.now }
{
    match str::from_utf8(name) {
        Ok("lower") => Favour::Lower,
        Ok("upper") => Favour::Upper,
        _ => Favour::Unsaid,
    }
}

// Four words, or one more that is `lower` or `upper`.
#[tactic(auto, using(crate::proofs::Asking::readings), unfolding(crate::specs::Said::ends_in_favour))]
fn ends_in_favour(text: &[u8]) -> bool
    ensures { result ≡ ends_in_favour (words_of text.now) }
{
    match count_words(text) {
        4 => true,
        5 => matches!(str::from_utf8(word(text, 4)), Ok("lower" | "upper")),
        _ => false,
    }
}

// FORM: the form that a word names.
#[tactic(auto, using(crate::proofs::Asking::readings), unfolding(crate::specs::Said::is_form, crate::specs::Said::form_in))]
fn form_in(name: &[u8]) -> Option<Form>
    ensures { result ≡ choose (is_form name.now) (Some (form_in name.now)) None }
{
    match str::from_utf8(name) {
        Ok("old") => Some(Form::Old),
        Ok("new") => Some(Form::New),
        _ => None,
    }
}

// open SEAT JOB FORM MAP
#[tactic(auto, using(crate::proofs::Asking::readings), unfolding(crate::specs::Said::only, crate::specs::Said::open_call))]
fn open(text: &[u8]) -> Option<Said>
    ensures { unwrap_or result Said.NotACall ≡ open_call (words_of text.now) }
{
    if count_words(text) != 5 {
        return None;
    }
    let (seat, job) = two_numbers(word(text, 1), MOST, word(text, 2), MOST_JOB)?;
    let form = form_in(word(text, 3))?;
    if !is_map(word(text, 4)) {
        return None;
    }
    Some(Said::Open {
        seat,
        job: job as u16,
        form,
    })
}

// place SEAT PIN X Y NET PART
#[tactic(auto, using(crate::proofs::Asking::readings), unfolding(crate::specs::Said::only, crate::specs::Said::place_call))]
fn place(text: &[u8]) -> Option<Said>
    ensures { unwrap_or result Said.NotACall ≡ place_call (words_of text.now) }
{
    let (seat, pin, at) = placing(text, 7)?;
    let (net, part) = two_numbers(word(text, 5), MOST, word(text, 6), MOST)?;
    Some(Said::Place {
        seat,
        pin,
        at,
        net: net as u32,
        part: part as u32,
    })
}

// NAME SEAT NET ROOM [FAVOUR]
#[tactic(auto, using(crate::proofs::Asking::readings), unfolding(crate::specs::Said::is_lending))]
fn lending(text: &[u8]) -> Option<(usize, u32, usize)>
    ensures { result ≡ choose (is_lending (words_of text.now)) (Some (number_in 1 (words_of text.now), number_in 2 (words_of text.now), number_in 3 (words_of text.now))) None }
{
    if !ends_in_favour(text) {
        return None;
    }
    let (seat, net) = two_numbers(word(text, 1), MOST, word(text, 2), MOST)?;
    let room = number(word(text, 3), MOST_LEGS_LENT)?;
    Some((seat, net as u32, room))
}

// bare ROOM XS YS [FAVOUR]
#[tactic(auto, using(crate::proofs::Asking::readings), unfolding(crate::specs::Said::only, crate::specs::Said::bare_call))]
fn bare(text: &[u8]) -> Option<Said>
    ensures { unwrap_or result Said.NotACall ≡ bare_call (words_of text.now) }
{
    if !ends_in_favour(text) {
        return None;
    }
    let room = number(word(text, 1), MOST_LEGS_LENT)?;
    if !is_list(word(text, 2)) || !is_list(word(text, 3)) {
        return None;
    }
    Some(Said::Bare { room })
}

// drops SEAT NET VOLTS OHMS LOADS
#[tactic(auto, using(crate::proofs::Asking::readings), unfolding(crate::specs::Said::only, crate::specs::Said::drops_call))]
fn drops(text: &[u8]) -> Option<Said>
    ensures { unwrap_or result Said.NotACall ≡ drops_call (words_of text.now) }
{
    if count_words(text) != 6 {
        return None;
    }
    let (seat, net) = two_numbers(word(text, 1), MOST, word(text, 2), MOST)?;
    if !is_bits(word(text, 3)) || !is_bits(word(text, 4)) {
        return None;
    }
    if !is_loads(word(text, 5)) {
        return None;
    }
    Some(Said::Drops {
        seat,
        net: net as u32,
    })
}

// NAME JOB ROOM MAP, a map to be moved to a form
#[tactic(auto, using(crate::proofs::Asking::readings), unfolding(crate::specs::Said::only, crate::specs::Said::moving_call))]
fn moving(text: &[u8], to: Form) -> Option<Said>
    ensures { unwrap_or result Said.NotACall ≡ moving_call to (words_of text.now) }
{
    if count_words(text) != 4 {
        return None;
    }
    let (job, room) = two_numbers(word(text, 1), MOST_JOB, word(text, 2), MOST_ROOM)?;
    if !is_map(word(text, 3)) {
        return None;
    }
    Some(Said::Moved {
        to,
        job: job as u16,
        room,
    })
}

// The call that the first word names.
pub(crate) fn call_in(text: &[u8]) -> Option<Said>
    ensures { unwrap_or result Said.NotACall ≡ call_in (words_of text.now) }
{
    let Ok(name) = str::from_utf8(word(text, 0)) else {
        return None;
    };
    match name {
        "open" => open(text),
        "close" => Some(Said::Close {
            seat: seat_alone(text)?,
        }),
        "place" => place(text),
        "move" => {
            let (seat, pin, to) = placing(text, 5)?;
            Some(Said::Move { seat, pin, to })
        }
        "remove" => {
            let (seat, pin) = pair(text, MOST)?;
            Some(Said::Remove { seat, pin })
        }
        "undo" => Some(Said::Undo {
            seat: seat_alone(text)?,
        }),
        "redo" => Some(Said::Redo {
            seat: seat_alone(text)?,
        }),
        "write" => {
            let (seat, room) = pair(text, MOST_ROOM)?;
            Some(Said::Write { seat, room })
        }
        "wire" => {
            let (seat, net, room) = lending(text)?;
            Some(Said::Wire { seat, net, room })
        }
        "mill" => {
            let (seat, net, room) = lending(text)?;
            Some(Said::Mill { seat, net, room })
        }
        "bare" => bare(text),
        "drops" => drops(text),
        "over" => moving(text, Form::New),
        "back" => moving(text, Form::Old),
        "pins" => Some(Said::Pins {
            seat: seat_alone(text)?,
        }),
        _ => None,
    }
}

// Whether a line with this first word is skipped.
#[tactic(auto, using(crate::proofs::Asking::readings), unfolding(crate::specs::Said::is_skipped))]
pub(crate) fn is_skipped(name: &[u8]) -> bool
    ensures { result ≡ skipped name.now }
{
    matches!(name, [] | [b'#', ..])
}
