// What is asked of a desk: writing the map of the drawing at a seat, and wiring a net of it, milling it, and the volts lost to its pins. The desk stays as it is.
#![tactic(auto)]

ghost use Rattle.std.specs.Prelude.{◌≡◌};
ghost use Rattle.asked.specs.Asked.{written_of, buffer_of, wired_of, wired_seat_of, lent_of, milled_of, milled_seat_of, segments_lent_of, dropped_of};

use board::PINS;
use copper::{Favour, Leg};
use desk::Desk;
use drops::Lost;
use loads::{Load, Sheet};
use mill::{Cut, Milling};
use refusal::Refusal;
use wiring::{Laid, Wiring};

// What a call that asks hands back: the desk as it is, and the answer.
#[derive(Clone, Copy)]
pub struct Asked<A> {
    pub desk: Desk,
    pub answer: A,
}

// What writing hands back: the desk as it is, and the number of bytes written, or why not.
pub type Written = Asked<Result<usize, Refusal>>;

// What wiring hands back: the desk as it is, and the answer with its legs.
pub type Wired = Asked<Laid>;

// What wiring into a lent list of legs hands back: the desk as it is, and the answer.
pub type WiredSeat = Asked<Wiring>;

// What milling hands back: the desk as it is, and the answer with its segments.
pub type Milled = Asked<Cut>;

// What milling into a lent list of segments hands back: the desk as it is, and the answer.
pub type MilledSeat = Asked<Milling>;

// What the call for volts lost hands back: the desk as it is, and the answer.
pub type Dropped = Asked<Lost>;

// Writes the map of the drawing at `seat`, in the new form, into a lent buffer, and says how many bytes, or why not. The desk stays as it is.
#[tactic(auto, using(crate::proofs::Writing::write_done, crate::proofs::Writing::write_left))]
pub fn write(desk: Desk, seat: usize, buffer: &mut [u8]) -> Written
    ensures value { result ≡ written_of desk seat buffer.old }
    ensures buffer_after { buffer.new ≡ buffer_of desk seat buffer.old }
{
    let answer = asking::map_written(&desk.find(seat), buffer);
    Asked { desk, answer }
}

// Wires a net of the drawing at `seat`, with room for so many legs, as is said of the shape to favour; or says why not. The desk stays as it is.
pub fn wire(desk: Desk, seat: usize, net: u32, room: usize, favour: Favour) -> Wired
    ensures { result ≡ wired_of desk seat net room favour }
{
    let answer = asking::feed_wired(&desk.find(seat), net, room, favour);
    Asked { desk, answer }
}

// Gives the copper of a net of the drawing at `seat` as segments, with room for so many, as is said of the shape to favour; or says why not. The desk stays as it is.
pub fn mill(desk: Desk, seat: usize, net: u32, room: usize, favour: Favour) -> Milled
    ensures { result ≡ milled_of desk seat net room favour }
{
    let answer = asking::feed_milled(&desk.find(seat), net, room, favour);
    Asked { desk, answer }
}

// The volts lost to each pin of a net of the drawing at `seat`, for these loads, one for each pin number, and this board sheet; or says why not. The desk stays as it is.
pub fn drops(desk: Desk, seat: usize, net: u32, loads: &[Load; PINS], sheet: Sheet) -> Dropped
    ensures { result ≡ dropped_of desk seat net loads.now sheet }
{
    let answer = asking::feed_dropped(&desk.find(seat), net, loads, sheet);
    Asked { desk, answer }
}

// Wires a net of the drawing at `seat` and fills a lent list with its legs, or says why not. Entries after the legs keep what they held.
// Two calls fill a lent list, for wiring and for milling: each is promised by definitions of its own, and their bodies are three lines.
pub fn wire_lent(desk: Desk, seat: usize, net: u32, legs: &mut [Leg], favour: Favour) -> WiredSeat
    ensures value { result ≡ wired_seat_of desk seat net legs.old favour }
    ensures legs_after { legs.new ≡ lent_of desk seat net legs.old favour }
{
    let Asked { desk, answer } = wire(desk, seat, net, legs.len(), favour);
    lent::fill(lent::strip_of(answer), legs);
    Asked {
        desk,
        answer: answer.wiring,
    }
}

// Fills a lent list with the copper of a net of the drawing at `seat` as segments, or says why not. Entries after the segments keep what they held.
pub fn mill_lent(
    desk: Desk,
    seat: usize,
    net: u32,
    segments: &mut [Leg],
    favour: Favour,
) -> MilledSeat
    ensures value { result ≡ milled_seat_of desk seat net segments.old favour }
    ensures segments_after { segments.new ≡ segments_lent_of desk seat net segments.old favour }
{
    let Asked { desk, answer } = mill(desk, seat, net, segments.len(), favour);
    lent::fill(mill::strip_of(answer), segments);
    Asked {
        desk,
        answer: answer.milling,
    }
}
