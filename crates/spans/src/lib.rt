// Spans of numbers: spans that overlap or touch are joined, and all put in order, in place, in a lent list.
#![tactic(auto)]

ghost use Rattle.std.specs.Prelude.{◌≡◌, ◌+◌, ◌≤◌, ◌<◌, length, take, drop};
ghost use Rattle.basics.specs.Lists.{padded};
ghost use Rattle.spans.specs.Spans.{most_spans, span, between_of, hull, left, carried, insert, cleaned};

use tree::RUNS;

// The most spans that a list holds: one for each leg of a board.
pub const SPANS: usize = 2 * RUNS;

// The numbers from low up to, not including, high.
#[derive(Clone, Copy)]
pub struct Span {
    pub low: usize,
    pub high: usize,
}

// The span between two numbers.
pub fn between(a: usize, b: usize) -> Span
    ensures { result ≡ between_of a b }
{
    Span {
        low: a.min(b),
        high: a.max(b),
    }
}

// The least span that holds both.
fn hull_of(s: Span, t: Span) -> Span
    ensures { result ≡ hull s t }
{
    Span {
        low: s.low.min(t.low),
        high: s.high.max(t.high),
    }
}

// Of the span that is carried along a list and the next one of the list, the one that is left behind; none where they overlap or touch.
#[tactic(auto, unfolding(crate::specs::Spans::left, basics::specs::Tests::choose))]
fn left_of(s: Span, t: Span) -> Option<Span>
    ensures { result ≡ left s t }
{
    if t.high < s.low {
        Some(t)
    } else if s.high < t.low {
        Some(s)
    } else {
        None
    }
}

// The one that is carried on: the later one, or where they overlap or touch the least that holds both.
#[tactic(auto, unfolding(crate::specs::Spans::carried, basics::specs::Tests::choose))]
fn carried_of(s: Span, t: Span) -> Span
    ensures { result ≡ carried s t }
{
    if s.high < t.low {
        t
    } else if t.high < s.low {
        s
    } else {
        hull_of(s, t)
    }
}

// Puts a span into the clean list of the first `count` spans, and says how many they are then: what is left behind is written over entries already read.
#[tactic(auto, using(crate::proofs::Walk::walk_none, crate::proofs::Walk::walk_all))]
fn put_in(spans: &mut [Span; SPANS], count: usize, span: Span) -> usize
    requires { count < most_spans }
    ensures few { result ≤ count + 1 }
    ensures list_after { take result spans.new ≡ insert span (take count spans.old) }
    ensures rest_unchanged { drop (count + 1) spans.new ≡ drop (count + 1) spans.old }
    ensures long { length spans.new ≡ most_spans }
{
    // A count, as in clean: what lies after the list is promised too.
    let mut carry = span;
    let mut kept = 0;
    // By number: the walk writes to the list that it reads.
    for at in 0..count {
        let next = spans[at];
        if let Some(passed) = left_of(carry, next) {
            spans[kept] = passed;
            kept += 1;
        }
        carry = carried_of(carry, next);
    }
    spans[kept] = carry;
    kept + 1
}

// Makes a clean list of the first `count` spans, in their place, with no other spans after it, and says how many they are then. It takes a count, and not
// a slice of so many spans, since it promises that those after them are cleared too.
#[tactic(auto, using(crate::proofs::Cleaning::give_none, crate::proofs::Cleaning::give_all))]
pub fn clean(spans: &mut [Span; SPANS], count: usize) -> usize
    requires { count ≤ most_spans }
    ensures value { result ≡ length (cleaned (take count spans.old)) }
    ensures list_after { spans.new ≡ padded most_spans (span 0 0) (cleaned (take count spans.old)) }
{
    let mut kept = 0;
    // By number, as in put_in.
    for at in 0..count {
        let span = spans[at];
        if span.low < span.high {
            kept = put_in(spans, kept, span);
        }
    }
    spans[kept..].fill(Span { low: 0, high: 0 });
    kept
}
