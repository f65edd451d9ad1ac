// One line of a log answered on a desk: the desk that follows, and the text to be printed.
// The lent buffer is a parameter of its own, for the reason that text/put has.
#![tactic(auto)]

ghost use Rattle.std.specs.Prelude.{◌≡◌, ◌≤◌, length};
ghost use Rattle.bare.specs.Bare.{bare_of};
ghost use Rattle.rows.specs.Calls.{opening};
ghost use Rattle.desk.specs.Desk.{step};
ghost use Rattle.asked.specs.Asked.{wired_of, milled_of, dropped_of};
ghost use Rattle.text.specs.Text.{over, most_room, answer_bytes, Holds};
ghost use Rattle.script.specs.Said.{map_given, xs_given, ys_given, favour_given, sheet_given, loads_given};
ghost use Rattle.printed.specs.Answers.{verdict_line, lost_line};
ghost use Rattle.shown.specs.Shown.{laid_text, cut_text};
ghost use Rattle.answer.specs.Answered.{played, call_text, lent_bytes, written_text, writing_text, moving_text, seat_text, answered};

use desk::{Answered, Desk};
use pinmap::Form;
use printed::{print_closed, print_drops, print_not_a_call, print_verdict, print_written};
use refusal::Refusal;
use script::Said;
use shown::{print_cut, print_drawn, print_laid};
use text::{ANSWER_BYTES, MOST_NUMBERS, MOST_PAIRS, MOST_ROOM};

// What a line is answered: the desk that follows, and how many bytes of the lent buffer are the text to be printed.
#[derive(Clone, Copy)]
pub struct Answer {
    pub desk: Desk,
    pub bytes: usize,
}

// Prints the verdict of a call, and hands on the desk that follows.
fn told(call: Answered, out: &mut [u8; ANSWER_BYTES]) -> Answer
    ensures desk_value { result.desk ≡ call.desk }
    ensures holds { Holds answer_bytes (verdict_line call.verdict) out.old result.bytes out.new }
{
    let bytes = print_verdict(call.verdict, out);
    Answer {
        desk: call.desk,
        bytes,
    }
}

// Opens a seat with the map that the line gives, of the form that it says.
fn open(
    desk: Desk,
    seat: usize,
    job: u16,
    form: Form,
    line: &[u8],
    out: &mut [u8; ANSWER_BYTES],
) -> Answer
    ensures desk_value { result.desk ≡ (step desk (opening seat job form (map_given 4 line.now))).desk }
    ensures holds { Holds answer_bytes (call_text desk (opening seat job form (map_given 4 line.now))) out.old result.bytes out.new }
{
    let mut map = [0u8; MOST_PAIRS];
    let bytes = script::given_map(line, 4, &mut map);
    told(desk.open(seat, job, form, &map[..bytes]), out)
}

// Prints what was written into a lent buffer, or why nothing was.
fn print_lent(written: Result<usize, Refusal>, buffer: &[u8], out: &mut [u8; ANSWER_BYTES]) -> usize
    ensures { Holds answer_bytes (written_text written buffer.now) out.old result out.new }
{
    match written {
        Ok(bytes) => print_written(bytes, buffer, out),
        Err(refusal) => print_verdict(Err(refusal), out),
    }
}

// Writes a map into a lent buffer.
fn write_into(desk: &Desk, seat: usize, buffer: &mut [u8], out: &mut [u8; ANSWER_BYTES]) -> usize
    ensures { Holds answer_bytes (writing_text desk.now seat buffer.old) out.old result out.new }
{
    let written = asked::write(*desk, seat, buffer);
    print_lent(written.answer, buffer, out)
}

// The most room that is lent, each byte holding EE: what the room holds before a call. A function, since its clause names the definition lent_bytes.
fn lent_bytes() -> [u8; MOST_ROOM]
    ensures { result ≡ lent_bytes most_room }
{
    [0xEEu8; MOST_ROOM]
}

// Writes a map into lent room.
fn write(desk: &Desk, seat: usize, room: usize, out: &mut [u8; ANSWER_BYTES]) -> usize
    requires { room ≤ most_room }
    ensures { Holds answer_bytes (writing_text desk.now seat (lent_bytes room)) out.old result out.new }
{
    let mut buffer = lent_bytes();
    write_into(desk, seat, &mut buffer[..room], out)
}

// Moves a map to a form, into a lent buffer.
fn move_into(
    to: Form,
    job: u16,
    map: &[u8],
    buffer: &mut [u8],
    out: &mut [u8; ANSWER_BYTES],
) -> usize
    ensures { Holds answer_bytes (moving_text to job map.now buffer.old) out.old result out.new }
{
    let moved = forms::move_map(to, job, map, buffer);
    print_lent(moved, buffer, out)
}

// Moves the map that the line gives to a form, into lent room.
fn move_map(to: Form, job: u16, room: usize, line: &[u8], out: &mut [u8; ANSWER_BYTES]) -> usize
    requires { room ≤ most_room }
    ensures { Holds answer_bytes (moving_text to job (map_given 3 line.now) (lent_bytes room)) out.old result out.new }
{
    let mut map = [0u8; MOST_PAIRS];
    let bytes = script::given_map(line, 3, &mut map);
    let mut buffer = lent_bytes();
    move_into(to, job, &map[..bytes], &mut buffer[..room], out)
}

// Wires a net of a seat, as the line says of the shape to favour. Beside the function that mills one: each asks and prints by functions of its own, in two lines.
fn wire(
    desk: &Desk,
    seat: usize,
    net: u32,
    room: usize,
    line: &[u8],
    out: &mut [u8; ANSWER_BYTES],
) -> usize
    ensures { Holds answer_bytes (laid_text (wired_of desk.now seat net room (favour_given line.now)).answer) out.old result out.new }
{
    let wired = asked::wire(*desk, seat, net, room, script::given_favour(line));
    print_laid(&wired.answer, out)
}

// Mills a net of a seat, as the line says of the shape to favour.
fn mill(
    desk: &Desk,
    seat: usize,
    net: u32,
    room: usize,
    line: &[u8],
    out: &mut [u8; ANSWER_BYTES],
) -> usize
    ensures { Holds answer_bytes (cut_text (milled_of desk.now seat net room (favour_given line.now)).answer) out.old result out.new }
{
    let milled = asked::mill(*desk, seat, net, room, script::given_favour(line));
    print_cut(&milled.answer, out)
}

// Wires the x and y that the line gives, as it says of the shape to favour.
fn wire_bare(line: &[u8], room: usize, out: &mut [u8; ANSWER_BYTES]) -> usize
    ensures { Holds answer_bytes (laid_text (bare_of (xs_given line.now) (ys_given line.now) room (favour_given line.now))) out.old result out.new }
{
    let mut xs = [0i32; MOST_NUMBERS];
    let mut ys = [0i32; MOST_NUMBERS];
    let across = script::given_xs(line, &mut xs);
    let up = script::given_ys(line, &mut ys);
    let favour = script::given_favour(line);
    let laid = bare::wire_bare(&xs[..across], &ys[..up], room, favour);
    print_laid(&laid, out)
}

// Asks for the drops of a net of a seat, with the sheet and the loads that the line gives.
fn drops(desk: &Desk, seat: usize, net: u32, line: &[u8], out: &mut [u8; ANSWER_BYTES]) -> usize
    ensures { Holds answer_bytes (lost_line (dropped_of desk.now seat net (loads_given line.now) (sheet_given line.now)).answer) out.old result out.new }
{
    let loads = script::given_loads(line);
    let sheet = script::given_sheet(line);
    let dropped = asked::drops(*desk, seat, net, &loads, sheet);
    print_drops(dropped.answer, out)
}

// Shows the drawing at a seat; 28 comes first, as for every call.
fn show_pins(desk: &Desk, seat: usize, out: &mut [u8; ANSWER_BYTES]) -> usize
    ensures { Holds answer_bytes (seat_text desk.now seat) out.old result out.new }
{
    let found = desk.find(seat);
    let verdict = rows::turned_naming(&found);
    match verdict {
        Err(Refusal::NotOpen) => print_closed(out),
        Err(_) => print_verdict(verdict, out),
        Ok(()) => {
            let taken_back = found.state.taken_back_count(&desk.journal, seat);
            print_drawn(
                found.state.job,
                &found.state.pins,
                found.state.standing,
                taken_back,
                out,
            )
        }
    }
}

// Answers the line of that number, without its newline.
pub fn answer_line(desk: Desk, number: usize, line: &[u8], out: &mut [u8; ANSWER_BYTES]) -> Answer
    ensures desk_value { result.desk ≡ played desk line.now }
    ensures bytes_value { ((result.bytes ≡ length (answered desk number line.now)) × (result.bytes ≤ answer_bytes)) × (out.new ≡ over (answered desk number line.now) out.old) }
{
    let said = script::read_line(line);
    match said {
        Said::Skip => Answer { desk, bytes: 0 },
        Said::NotACall => {
            let bytes = print_not_a_call(number, out);
            Answer { desk, bytes }
        }
        Said::Open { seat, job, form } => open(desk, seat, job, form, line, out),
        Said::Close { seat } => told(desk.close(seat), out),
        Said::Place {
            seat,
            pin,
            at,
            net,
            part,
        } => told(desk.place(seat, pin, at, net, part), out),
        Said::Move { seat, pin, to } => told(desk.shift(seat, pin, to), out),
        Said::Remove { seat, pin } => told(desk.remove(seat, pin), out),
        Said::Undo { seat } => told(desk.undo(seat), out),
        Said::Redo { seat } => told(desk.redo(seat), out),
        Said::Write { seat, room } => {
            let bytes = write(&desk, seat, room, out);
            Answer { desk, bytes }
        }
        Said::Wire { seat, net, room } => {
            let bytes = wire(&desk, seat, net, room, line, out);
            Answer { desk, bytes }
        }
        Said::Mill { seat, net, room } => {
            let bytes = mill(&desk, seat, net, room, line, out);
            Answer { desk, bytes }
        }
        Said::Bare { room } => {
            let bytes = wire_bare(line, room, out);
            Answer { desk, bytes }
        }
        Said::Drops { seat, net } => {
            let bytes = drops(&desk, seat, net, line, out);
            Answer { desk, bytes }
        }
        Said::Moved { to, job, room } => {
            let bytes = move_map(to, job, room, line, out);
            Answer { desk, bytes }
        }
        Said::Pins { seat } => {
            let bytes = show_pins(&desk, seat, out);
            Answer { desk, bytes }
        }
    }
}
