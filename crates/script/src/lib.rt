// The lines of a log read into calls, over bytes.
#![tactic(auto)]

mod calls;
mod load_words;

ghost use Rattle.std.specs.Prelude.{◌≡◌, ◌≤◌, length};
ghost use Rattle.text.specs.Text.{over};
ghost use Rattle.text.specs.Numbers.{most_pairs, most_numbers};
ghost use Rattle.script.specs.Said.{said_by, map_given, xs_given, ys_given, favour_given, sheet_given, loads_given};

use board::{PINS, Place};
use calls::{call_in, favour_in, is_skipped};
use copper::Favour;
use load_words::loads_in;
use loads::{Load, Sheet};
use pinmap::Form;
use text::numbers::{fill_list, fill_map, float};
use text::words::{without_return, word};
use text::{MOST_NUMBERS, MOST_PAIRS};

// A line of more bytes is not a call.
const MOST_LINE: usize = 16384;

// What a line says: nothing, no call, or a call with its numbers. The map of an opening or of a moving, the lists of a bare wiring, the shape to
// favour and what drops are asked for are read from the line by functions of their own, map and lists into lent buffers.
// Skip and NotACall are cases, and no Option of a call: the documents know three kinds of line.
#[derive(Clone, Copy)]
pub enum Said {
    Skip,
    NotACall,
    Open {
        seat: usize,
        job: u16,
        form: Form,
    },
    Close {
        seat: usize,
    },
    Place {
        seat: usize,
        pin: usize,
        at: Place,
        net: u32,
        part: u32,
    },
    Move {
        seat: usize,
        pin: usize,
        to: Place,
    },
    Remove {
        seat: usize,
        pin: usize,
    },
    Undo {
        seat: usize,
    },
    Redo {
        seat: usize,
    },
    Write {
        seat: usize,
        room: usize,
    },
    Wire {
        seat: usize,
        net: u32,
        room: usize,
    },
    Mill {
        seat: usize,
        net: u32,
        room: usize,
    },
    Bare {
        room: usize,
    },
    Drops {
        seat: usize,
        net: u32,
    },
    Moved {
        to: Form,
        job: u16,
        room: usize,
    },
    Pins {
        seat: usize,
    },
}

// Reads a line, without its newline.
#[tactic(auto, using(crate::proofs::Asking::line_long, crate::proofs::Asking::line_skipped, crate::proofs::Asking::line_call))]
pub fn read_line(line: &[u8]) -> Said
    ensures { result ≡ said_by line.now }
{
    let text = without_return(line);
    if MOST_LINE < text.len() {
        return Said::NotACall;
    }
    if is_skipped(word(text, 0)) {
        return Said::Skip;
    }
    call_in(text).unwrap_or(Said::NotACall)
}

// Writes the map in the word of a number, counted from 0, from the start on, and answers how many bytes it has.
#[tactic(auto, unfolding(crate::specs::Said::map_given))]
pub fn given_map(line: &[u8], at: usize, map: &mut [u8; MOST_PAIRS]) -> usize
    ensures value { (result ≡ length (map_given at line.now)) × (result ≤ most_pairs) }
    ensures map_after { map.new ≡ over (map_given at line.now) map.old }
{
    fill_map(word(without_return(line), at), map)
}

// Writes the x of a bare wiring from the start on, and answers how many there are.
// Two readers for x and y, one line each: each is promised by a definition of its own (xs_given, ys_given).
#[tactic(auto, unfolding(crate::specs::Said::xs_given))]
pub fn given_xs(line: &[u8], xs: &mut [i32; MOST_NUMBERS]) -> usize
    ensures value { (result ≡ length (xs_given line.now)) × (result ≤ most_numbers) }
    ensures xs_after { xs.new ≡ over (xs_given line.now) xs.old }
{
    fill_list(word(without_return(line), 2), xs)
}

// Writes the y of a bare wiring from the start on, and answers how many there are.
#[tactic(auto, unfolding(crate::specs::Said::ys_given))]
pub fn given_ys(line: &[u8], ys: &mut [i32; MOST_NUMBERS]) -> usize
    ensures value { (result ≡ length (ys_given line.now)) × (result ≤ most_numbers) }
    ensures ys_after { ys.new ≡ over (ys_given line.now) ys.old }
{
    fill_list(word(without_return(line), 3), ys)
}

// What the line says of the shape to favour.
#[tactic(auto, unfolding(crate::specs::Said::favour_given))]
pub fn given_favour(line: &[u8]) -> Favour
    ensures { result ≡ favour_given line.now }
{
    favour_in(word(without_return(line), 4))
}

// The board sheet that the line gives.
#[tactic(auto, unfolding(crate::specs::Said::sheet_given))]
pub fn given_sheet(line: &[u8]) -> Sheet
    ensures { result ≡ sheet_given line.now }
{
    let text = without_return(line);
    let volts = float(word(text, 3));
    let ohms = float(word(text, 4));
    Sheet { volts, ohms }
}

// The loads that the line gives, by pin number.
#[tactic(auto, unfolding(crate::specs::Said::loads_given))]
pub fn given_loads(line: &[u8]) -> [Load; PINS]
    ensures { result ≡ loads_given line.now }
{
    loads_in(word(without_return(line), 5))
}
