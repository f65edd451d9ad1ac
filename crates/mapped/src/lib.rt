// What the program wiremap answers to its input, as bytes in a lent buffer.
// The lent buffer is a parameter of its own, for the reason that text/put has.
#![tactic(auto)]

ghost use Rattle.std.specs.Prelude.{◌≡◌, true, ◌≤◌, length, replicate};
ghost use Rattle.drawing.specs.Pins.{lawful, feed_of};
ghost use Rattle.copper.specs.declared.Favour.TheVariants.{Lower};
ghost use Rattle.laying.specs.Entries.{most_legs};
ghost use Rattle.wiring.specs.Answer.{wiring_of};
ghost use Rattle.text.specs.Text.{over, answer_bytes};
ghost use Rattle.mapped.specs.Mapped.{job_of_map, map_answer, most_read};

use board::PINS;
use copper::Favour;
use drawing::Pin;
use laying::LEGS;
use pinmap::{Form, OLD_BYTES};
use printed::print_verdict;
use rows::Found;
use seats::Seat;
use shown::print_map;
use text::ANSWER_BYTES;
use wiring::Laid;

// Of a longer input it is enough to read so many bytes (proofs/Inputs.antt).
const MOST_READ: usize = (PINS + 1) * OLD_BYTES + 1;

// Room for as much of the input as is enough to read.
// A function, since MOST_READ is private: the program takes the array from here.
pub fn window() -> [u8; MOST_READ]
    ensures { result ≡ replicate most_read 0 }
{
    [0u8; MOST_READ]
}

// The job in the first two bytes of a map, and job 1 where there are fewer.
fn job_of_map(map: &[u8]) -> u16
    ensures { result ≡ job_of_map map.now }
{
    if map.len() < 2 {
        return 1;
    }
    records::job_at(map)
}

// Wires net 1 of the pins of a map as those of seat 0, open for its job: room for all legs, lower asked for.
fn wire_opened(job: u16, pins: [Pin; PINS]) -> Laid
    requires { lawful pins ≡ true }
    ensures { result ≡ wiring_of (feed_of pins 1) most_legs Lower }
{
    let found = Found {
        broken: false,
        seat: 0,
        state: Seat::open(job, pins),
    };
    asking::feed_wired(&found, 1, LEGS, Favour::Lower)
}

// Opens a map of the old form at seat 0 of an empty desk under its job, wires net 1 with lower asked for, and prints the answer; says how many bytes that is.
// The desk itself is not held: of an empty one, opening and wiring look at the map alone.
pub fn map_answer(map: &[u8], out: &mut [u8; ANSWER_BYTES]) -> usize
    ensures { ((result ≡ length (map_answer map.now)) × (result ≤ answer_bytes)) × (out.new ≡ over (map_answer map.now) out.old) }
{
    let job = job_of_map(map);
    match readmap::read_under(Form::Old, map, job) {
        Ok(pins) => print_map(job, &wire_opened(job, pins).wiring, out),
        Err(refusal) => print_verdict(Err(refusal), out),
    }
}
