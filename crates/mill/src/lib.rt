// The copper of a wired feed as a clean list of segments for the mill.
#![tactic(auto)]

ghost use Rattle.std.specs.Prelude.{◌≡◌, true, [], map, ◌*◌, ◌≤◌, ◌<◌, length, IfOk, IfErr, Err};
ghost use Rattle.basics.specs.Tests.{each_of};
ghost use Rattle.basics.specs.Lists.{padded};
ghost use Rattle.board.specs.Place.{on_board, inside};
ghost use Rattle.board.specs.Spots.{all_within, all_apart};
ghost use Rattle.spans.specs.Spans.{span};
ghost use Rattle.laying.specs.Entries.{most_legs, leg_entries};
ghost use Rattle.laying.specs.Reaching.{strip};
ghost use Rattle.mill.specs.Numbered.{width, columns, counted, uncounted, row_number, column_number, span_of, is_inside, is_numbered, place_of, segment_of, segments_of};
ghost use Rattle.mill.specs.Answer.{cut_with, cut_of, strip_of_cut};

use board::{PINS, Place, Spot};
use copper::{Favour, Leg};
use laying::{LEGS, NO_LEG, Strip};
use refusal::{Refusal, Verdict};
use spans::Span;

// How many numbers a line of steps has.
const WIDTH: usize = 131072;

// The number where columns begin.
const COLUMNS: usize = WIDTH * WIDTH;

// The answer of milling: its verdict and the number of segments, side by side, since a refused answer has no segments (mill/Answer: cut_by).
#[derive(Clone, Copy)]
pub struct Milling {
    pub verdict: Verdict,
    pub segments: usize,
}

// The answer with the list of its segments by value.
#[derive(Clone, Copy)]
pub struct Cut {
    pub milling: Milling,
    pub list: [Leg; LEGS],
}

// A number of the board, counted from the lowest.
// No TryFrom: only numbers of the board are counted, and from the lowest of them (mill/Numbered: counted).
#[tactic(auto, using(crate::proofs::Counting::count_sum, crate::proofs::Counting::count_fits))]
fn count_of(z: i32) -> usize
    requires { on_board z ≡ true }
    ensures { result ≡ counted z }
{
    (z + board::LIMIT) as usize
}

// The number of the board that is so many from the lowest.
#[tactic(auto, using(crate::proofs::Counting::back_is, crate::proofs::Counting::back_fits))]
fn count_back(n: usize) -> i32
    requires { n < width }
    ensures { result ≡ uncounted n }
{
    n as i32 - board::LIMIT
}

// The number of the step of a row that begins at a place.
// Two functions for rows and columns: x and y change places, and the columns are numbered after the rows.
#[tactic(auto, using(crate::proofs::Counting::place_read), unfolding(crate::specs::Numbered::row_number))]
fn row_number(a: Place) -> usize
    requires { inside a ≡ true }
    ensures { result ≡ row_number a }
{
    count_of(a.y) * WIDTH + count_of(a.x)
}

// The number of the step of a column that begins at a place.
#[tactic(auto, using(crate::proofs::Counting::place_read), unfolding(crate::specs::Numbered::column_number))]
fn column_number(a: Place) -> usize
    requires { inside a ≡ true }
    ensures { result ≡ column_number a }
{
    COLUMNS + count_of(a.x) * WIDTH + count_of(a.y)
}

// The numbers of the steps of a leg.
#[tactic(auto, using(crate::proofs::Reading::leg_read))]
fn span_of(leg: Leg) -> Span
    requires { is_inside leg ≡ true }
    ensures { result ≡ span_of leg }
{
    if leg.from.y == leg.to.y {
        spans::between(row_number(leg.from), row_number(leg.to))
    } else if leg.from.x == leg.to.x {
        spans::between(column_number(leg.from), column_number(leg.to))
    } else {
        Span { low: 0, high: 0 }
    }
}

// The place where the step with a number begins.
#[tactic(auto, using(crate::proofs::Counting::back_read), unfolding(crate::specs::Numbered::place_of, basics::specs::Tests::choose))]
fn place_of(n: usize) -> Place
    requires { n < 2 * columns }
    ensures { result ≡ place_of n }
{
    if n < COLUMNS {
        Place {
            x: count_back(n % WIDTH),
            y: count_back(n / WIDTH),
        }
    } else {
        Place {
            x: count_back((n - COLUMNS) / WIDTH),
            y: count_back(n % WIDTH),
        }
    }
}

// The segment of a span.
#[tactic(auto, using(crate::proofs::Filling::low_numbered, crate::proofs::Filling::high_numbered))]
fn segment_of(span: Span) -> Leg
    requires { is_numbered span ≡ true }
    ensures { result ≡ segment_of span }
{
    Leg {
        from: place_of(span.low),
        to: place_of(span.high),
    }
}

// The spans of some legs, as many entries as a board can have legs.
fn spans_of(legs: &[Leg]) -> [Span; LEGS]
    requires { (length legs.now ≤ most_legs) × (each_of is_inside legs.now ≡ true) }
    ensures { result ≡ padded most_legs (span 0 0) (map span_of legs.now) }
{
    let mut spans = [Span { low: 0, high: 0 }; LEGS];
    for (at, leg) in legs.iter().enumerate() {
        spans[at] = span_of(*leg);
    }
    spans
}

// The segments of some spans, as many entries as a board can have legs. A loop beside that of the spans, and not one function over what is made of an
// entry: it would have to say what that may be asked of each, and what it answers, which is longer than the loop.
#[tactic(auto, unfolding(laying::specs::Entries::leg_entries))]
fn segments_of(spans: &[Span]) -> [Leg; LEGS]
    requires { (length spans.now ≤ most_legs) × (each_of is_numbered spans.now ≡ true) }
    ensures { result ≡ leg_entries (map segment_of spans.now) }
{
    let mut segments = [laying::NO_LEG; LEGS];
    for (at, span) in spans.iter().enumerate() {
        segments[at] = segment_of(*span);
    }
    segments
}

// Some legs as a clean list of segments, with their number.
fn cut_legs(legs: &[Leg]) -> Strip
    requires { (length legs.now ≤ most_legs) × (each_of is_inside legs.now ≡ true) }
    ensures { result ≡ strip (segments_of legs.now) }
{
    let mut spans = spans_of(legs);
    let count = spans::clean(&mut spans, legs.len());
    let list = segments_of(&spans[..count]);
    Strip { count, list }
}

// A refused milling: no segments.
#[tactic(auto, unfolding(crate::specs::Answer::cut_with, laying::specs::Entries::leg_entries))]
pub fn refused(verdict: Verdict) -> Cut
    ensures { result ≡ cut_with verdict [] }
{
    Cut {
        milling: Milling {
            verdict,
            segments: 0,
        },
        list: [laying::NO_LEG; LEGS],
    }
}

// The segments of an answer, with their number.
// One function here and one in lent: they read other fields of other structs, and a trait for the two would be longer than both.
pub fn strip_of(cut: Cut) -> Strip
    ensures { result ≡ strip_of_cut cut }
{
    // The list is read into a variable: an array that goes straight from a field into a struct is not covered by the prover.
    let list = cut.list;
    Strip {
        count: cut.milling.segments,
        list,
    }
}

// The copper as segments of a feed whose pins stand on the board, no two of them too near, or why it is not given.
#[tactic(auto, using(crate::proofs::Room::wiring_refuses))]
fn cut_feed(spots: &[Spot; PINS], room: usize, favour: Favour) -> Result<Cut, Refusal>
    requires { (all_within spots.now ≡ true) × (all_apart spots.now ≡ true) }
    ensures ok { IfOk result (λ cut. cut ≡ cut_of spots.now room favour) }
    ensures err { IfErr result (λ r. cut_with (Err r) [] ≡ cut_of spots.now room favour) }
{
    let laid = wiring::wire_feed(spots, LEGS, favour);
    laid.wiring.verdict?;
    let strip = cut_legs(&laid.list[..laid.wiring.legs]);
    if room < strip.count {
        return Err(Refusal::RoomTooSmall);
    }
    let list = strip.list;
    let milling = Milling {
        verdict: Ok(()),
        segments: strip.count,
    };
    Ok(Cut { milling, list })
}

// The copper as segments of a feed whose pins stand on the board, no two of them too near, with room for so many, where this is said of the shape to favour.
pub fn mill_feed(spots: &[Spot; PINS], room: usize, favour: Favour) -> Cut
    requires { (all_within spots.now ≡ true) × (all_apart spots.now ≡ true) }
    ensures { result ≡ cut_of spots.now room favour }
{
    cut_feed(spots, room, favour).unwrap_or_else(|refusal| refused(Err(refusal)))
}
