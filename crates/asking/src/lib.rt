// Calls that ask, over what they find at the seat that they name: writing the map of its drawing, and wiring a net of it, milling it, and the volts lost to its pins.
#![tactic(auto)]

ghost use Rattle.std.specs.Prelude.{◌≡◌, true, false, ◌++◌, length};
ghost use Rattle.refusal.specs.Rows.{first_of, granted};
ghost use Rattle.drawing.specs.Pins.{lawful, feed_of};
ghost use Rattle.pinmap.specs.declared.Form.TheVariants.{New};
ghost use Rattle.writemap.specs.Map.{map_of, room_rows, write_by, buffer_by};
ghost use Rattle.mill.specs.Answer.{copper_of, mill_rows, cut_by};
ghost use Rattle.drops.specs.Drops.{drop_rows, drops_of, lost_by};
ghost use Rattle.rows.specs.Found.{naming_found, naming_net, wired_by};

use board::{PINS, Spot};
use copper::Favour;
use drops::Lost;
use loads::{Load, Sheet};
use mill::Cut;
use pinmap::Form;
use refusal::Refusal;
use rows::Found;
use wiring::Laid;

// That the pins keep the rules is asked by each of the calls below, and is no invariant of `Found`: `found_in`, by which `Desk::find` promises what it finds on any
// desk, tells the three fields and no proof.

// Writing, in the new form: 28, 1, 2, 19; the map into the lent buffer, and the number of bytes, where none applies.
pub fn map_written(found: &Found, buffer: &mut [u8]) -> Result<usize, Refusal>
    requires { found.now.broken ≡ false → found.now.state.opened ≡ true → lawful found.now.state.pins ≡ true }
    ensures value { result ≡ write_by (naming_found found.now ++ room_rows New found.now.state.job found.now.state.pins (length buffer.old)) (map_of New found.now.state.job found.now.state.pins) }
    ensures buffer_after { buffer.new ≡ buffer_by (naming_found found.now ++ room_rows New found.now.state.job found.now.state.pins (length buffer.old)) (map_of New found.now.state.job found.now.state.pins) buffer.old }
{
    rows::turned_naming(found)?;
    writemap::write_map(Form::New, &found.state.pins, found.state.job, buffer)
}

// The feed of a net of a seat, for every call that asks for one: 28, 1, 2, 21.
#[tactic(auto, unfolding(refusal::specs::Rows::first_of, basics::specs::Tests::choose))]
fn feed_asked(found: &Found, net: u32) -> Result<[Spot; PINS], Refusal>
    ensures { result ≡ granted (first_of (naming_net found.now net)) (feed_of found.now.state.pins net) }
{
    rows::turned_naming(found)?;
    if drawing::is_net(net) {
        Ok(drawing::feed_of(&found.state.pins, net))
    } else {
        Err(Refusal::NoSuchNet)
    }
}

// What asks for a feed is one function for each answer: what answers the feed, and what a refused answer holds, are of another crate in each, and a generic one would
// take both as closures and say no more.

// Wiring a net of a seat, with room for so many legs and what is said of the shape to favour: 28, 1, 2, 21, then what wiring the net's feed answers, 17 or 19 among it.
pub fn feed_wired(found: &Found, net: u32, room: usize, favour: Favour) -> Laid
    requires { found.now.broken ≡ false → found.now.state.opened ≡ true → lawful found.now.state.pins ≡ true }
    ensures { result ≡ wired_by (naming_net found.now net) (feed_of found.now.state.pins net) room favour }
{
    match feed_asked(found, net) {
        Ok(feed) => wiring::wire_feed(&feed, room, favour),
        Err(refusal) => wiring::refused(Err(refusal)),
    }
}

// The copper of a net of a seat as segments, with room for so many and what is said of the shape to favour: 28, 1, 2, 21, then what is answered for the net's feed, 17 or 19 among it.
pub fn feed_milled(found: &Found, net: u32, room: usize, favour: Favour) -> Cut
    requires { found.now.broken ≡ false → found.now.state.opened ≡ true → lawful found.now.state.pins ≡ true }
    ensures { result ≡ cut_by (naming_net found.now net ++ mill_rows (feed_of found.now.state.pins net) room favour) (copper_of (feed_of found.now.state.pins net) favour) }
{
    match feed_asked(found, net) {
        Ok(feed) => mill::mill_feed(&feed, room, favour),
        Err(refusal) => mill::refused(Err(refusal)),
    }
}

// The volts lost to the pins of a net of a seat: 28, 1, 2, 21, then what is answered for the net's feed, 17 or 20 among it.
pub fn feed_dropped(found: &Found, net: u32, loads: &[Load; PINS], sheet: Sheet) -> Lost
    requires { found.now.broken ≡ false → found.now.state.opened ≡ true → lawful found.now.state.pins ≡ true }
    ensures { result ≡ lost_by (naming_net found.now net ++ drop_rows (feed_of found.now.state.pins net) loads.now sheet) (drops_of (feed_of found.now.state.pins net) loads.now sheet) }
{
    match feed_asked(found, net) {
        Ok(feed) => drops::drops_of(&feed, loads, sheet),
        Err(refusal) => drops::refused(Err(refusal)),
    }
}
