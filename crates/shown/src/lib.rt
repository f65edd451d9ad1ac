// Answers of several lines printed into a lent buffer: a wiring, a milling, the wiring of a map, a drawing.
// The lent buffer is a parameter of its own, for the reason that text/put has.
#![tactic(auto)]

ghost use Rattle.std.specs.Prelude.{◌≡◌, ◌+◌, ◌*◌, ◌≤◌, length, take};
ghost use Rattle.std.proofs.lemmas.List.Edits.{sets};
ghost use Rattle.board.specs.Spots.{most_pins};
ghost use Rattle.tree.specs.Trees.{most_runs};
ghost use Rattle.laying.specs.Entries.{most_legs};
ghost use Rattle.text.specs.Text.{over, answer_bytes};
ghost use Rattle.printed.specs.Answers.{most_run_bytes, most_word_bytes, most_leg_bytes, most_pin_bytes};
ghost use Rattle.shown.specs.Shown.{entry_line, runs_text, leg_text, legs_text, pin_text, pins_text, pins_there, laid_text, cut_text, map_text, drawn_text};

use board::PINS;
use copper::{Leg, Shape};
use drawing::Pin;
use laying::{LEGS, RunEntry};
use mill::Cut;
use printed::{
    print_drawing, print_job, print_leg, print_milled, print_pin, print_run, print_verdict,
    print_wired,
};
use text::ANSWER_BYTES;
use tree::RUNS;
use wiring::{Laid, Wiring};

// A run, from a position on.
#[tactic(auto, unfolding(crate::specs::Shown::entry_line))]
fn put_entry(run: RunEntry, out: &mut [u8; ANSWER_BYTES], at: usize) -> usize
    requires { at + most_run_bytes ≤ answer_bytes }
    ensures value { (result ≡ at + length (entry_line run)) × (result ≤ at + most_run_bytes) }
    ensures out_after { out.new ≡ sets out.old at (entry_line run) }
{
    let shape: &[u8] = match run.shape {
        Shape::Straight => b"straight",
        Shape::Lower => b"lower",
        Shape::Upper => b"upper",
    };
    print_run(run.near, run.far, shape, out, at)
}

// The first runs of a list, from a position on.
// A list and a count, here and below, and no slice: an answer may come with a number past its list, which is cut where the loop is and not in each caller.
// The loops are one for each kind of line: a generic one would have to say what may be asked of each and what it answers.
fn put_runs(runs: &[RunEntry; RUNS], count: usize, out: &mut [u8; ANSWER_BYTES], at: usize) -> usize
    requires { at + most_runs * most_run_bytes ≤ answer_bytes }
    ensures value { (result ≡ at + length (runs_text (take count runs.now))) × (result ≤ at + most_runs * most_run_bytes) }
    ensures out_after { out.new ≡ sets out.old at (runs_text (take count runs.now)) }
{
    let mut next = at;
    for run in &runs[..count.min(RUNS)] {
        next = put_entry(*run, out, next);
    }
    next
}

// A leg or a segment, after its word, from a position on.
fn put_leg(word: &[u8], leg: Leg, out: &mut [u8; ANSWER_BYTES], at: usize) -> usize
    requires { (length word.now ≤ most_word_bytes) × (at + most_leg_bytes ≤ answer_bytes) }
    ensures value { (result ≡ at + length (leg_text word.now leg)) × (result ≤ at + most_leg_bytes) }
    ensures out_after { out.new ≡ sets out.old at (leg_text word.now leg) }
{
    print_leg(word, leg.from, leg.to, out, at)
}

// The first legs or segments of a list, each after the same word, from a position on.
fn put_legs(
    word: &[u8],
    legs: &[Leg; LEGS],
    count: usize,
    out: &mut [u8; ANSWER_BYTES],
    at: usize,
) -> usize
    requires { (length word.now ≤ most_word_bytes) × (at + most_legs * most_leg_bytes ≤ answer_bytes) }
    ensures value { (result ≡ at + length (legs_text word.now (take count legs.now))) × (result ≤ at + most_legs * most_leg_bytes) }
    ensures out_after { out.new ≡ sets out.old at (legs_text word.now (take count legs.now)) }
{
    let mut next = at;
    for leg in &legs[..count.min(LEGS)] {
        next = put_leg(word, *leg, out, next);
    }
    next
}

// A pin that is there, from a position on.
#[tactic(auto, unfolding(crate::specs::Shown::pin_text))]
fn put_pin(number: usize, pin: Pin, out: &mut [u8; ANSWER_BYTES], at: usize) -> usize
    requires { at + most_pin_bytes ≤ answer_bytes }
    ensures value { (result ≡ at + length (pin_text number pin)) × (result ≤ at + most_pin_bytes) }
    ensures out_after { out.new ≡ sets out.old at (pin_text number pin) }
{
    match pin {
        None => at,
        Some(held) => print_pin(number, held.place, held.net, held.part, out, at),
    }
}

// The pins of a drawing that are there, from a position on.
fn put_pins(pins: &[Pin; PINS], out: &mut [u8; ANSWER_BYTES], at: usize) -> usize
    requires { at + most_pins * most_pin_bytes ≤ answer_bytes }
    ensures value { (result ≡ at + length (pins_text 0 pins.now)) × (result ≤ at + most_pins * most_pin_bytes) }
    ensures out_after { out.new ≡ sets out.old at (pins_text 0 pins.now) }
{
    let mut next = at;
    for (number, &pin) in pins.iter().enumerate() {
        next = put_pin(number, pin, out, next);
    }
    next
}

// How many pins of a drawing are there.
fn pins_there(pins: &[Pin; PINS]) -> usize
    ensures { result ≡ pins_there pins.now }
{
    pins.iter().filter(|pin| pin.is_some()).count()
}

// Prints the answer of a wiring with its legs, and answers how many bytes that is.
pub fn print_laid(laid: &Laid, out: &mut [u8; ANSWER_BYTES]) -> usize
    ensures { ((result ≡ length (laid_text laid.now)) × (result ≤ answer_bytes)) × (out.new ≡ over (laid_text laid.now) out.old) }
{
    let wiring = &laid.wiring;
    if wiring.verdict.is_err() {
        return print_verdict(wiring.verdict, out);
    }
    let length = wiring.length as usize;
    let weighed = wiring.weighed as usize;
    let one = print_wired(length, wiring.runs, wiring.legs, weighed, out);
    let two = put_runs(&wiring.entries, wiring.runs, out, one);
    put_legs(b"leg ", &laid.list, wiring.legs, out, two)
}

// Prints the answer of a milling with its segments, and answers how many bytes that is.
pub fn print_cut(cut: &Cut, out: &mut [u8; ANSWER_BYTES]) -> usize
    ensures { ((result ≡ length (cut_text cut.now)) × (result ≤ answer_bytes)) × (out.new ≡ over (cut_text cut.now) out.old) }
{
    let milling = cut.milling;
    if milling.verdict.is_err() {
        return print_verdict(milling.verdict, out);
    }
    let next = print_milled(milling.segments, out);
    put_legs(b"segment ", &cut.list, milling.segments, out, next)
}

// Prints the answer of the wiring of a map, and answers how many bytes that is.
#[tactic(auto, using(crate::proofs::Lines::map_told, crate::proofs::Lines::map_over))]
pub fn print_map(job: u16, wiring: &Wiring, out: &mut [u8; ANSWER_BYTES]) -> usize
    ensures { ((result ≡ length (map_text job wiring.now)) × (result ≤ answer_bytes)) × (out.new ≡ over (map_text job wiring.now) out.old) }
{
    let verdict = wiring.verdict;
    if verdict.is_err() {
        return print_verdict(verdict, out);
    }
    let length = wiring.length as usize;
    let weighed = wiring.weighed as usize;
    let one = print_job(job as usize, length, wiring.runs, weighed, out);
    put_runs(&wiring.entries, wiring.runs, out, one)
}

// Prints a drawing, and answers how many bytes that is.
pub fn print_drawn(
    job: u16,
    pins: &[Pin; PINS],
    standing: usize,
    taken: usize,
    out: &mut [u8; ANSWER_BYTES],
) -> usize
    ensures { ((result ≡ length (drawn_text job pins.now standing taken)) × (result ≤ answer_bytes)) × (out.new ≡ over (drawn_text job pins.now standing taken) out.old) }
{
    let there = pins_there(pins);
    let next = print_drawing(job as usize, there, standing, taken, out);
    put_pins(pins, out, next)
}
