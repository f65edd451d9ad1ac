// A log of calls played on one desk: the input taken in window by window, each line answered where it ends, and its answer written.
// The lent buffer is a parameter of its own, for the reason that text/put has.
#![tactic(auto)]

mod windows;

ghost use Rattle.std.specs.Prelude.{◌≡◌, ◌-◌, ◌≤◌, false, length, take, drop, nat_lt, IfOk, OnErr};
ghost use Rattle.text.specs.Text.{over, answer_bytes};
ghost use Rattle.answer.specs.Answered.{played, answered};
ghost use Rattle.play.specs.Log.{most_kept, log_of, next_line, stretched, heard, ComesOf};
ghost use Rattle.play.specs.Lines.{Played};
ghost use Rattle.play.specs.Answers.{line_answer, stretched_answers, heard_answers, Writes, Streamed, Failed, Answers, CutShort};

use crate::windows::{MOST_KEPT, WINDOW, keep, newline, to_hear};
use answer::answer_line;
use desk::Desk;
use std::io::{self, ErrorKind, Read, Write};
use text::ANSWER_BYTES;

// A log in play: the desk as it stands, how many bytes of the line that is being read are kept, how many lines were played,
// and whether the input has ended, a flag of its own: a log of which nothing is kept may go on.
// The buffers are lent beside it, and how much of a line is kept is asked of each function, not of the type: a host may read every field, and `Played` says all.
#[derive(Clone, Copy)]
pub struct Session {
    pub desk: Desk,
    pub kept: usize,
    pub lines: usize,
    pub ended: bool,
}

// Writes the first bytes of a buffer: all of them, or those before a write that fails or takes none.
fn send<W: Write>(writer: &mut W, out: &[u8; ANSWER_BYTES], bytes: usize) -> io::Result<()>
    requires { bytes ≤ answer_bytes }
    ensures { Writes result (W.contents writer.old) (W.contents writer.new) (take bytes out.now) }
{
    // A loop over `write`: of what `write_all` has written when it fails the library says nothing, and `Writes` does.
    let mut done = 0;
    while done < bytes {
        let n = writer.write(&out[done..bytes])?;
        if n == 0 {
            return Err(io::Error::from(ErrorKind::WriteZero));
        }
        done += n;
    }
    Ok(())
}

// Answers the line of that number, without its newline, sends the answer, and hands on the desk that follows.
fn play_line<W: Write>(
    writer: &mut W,
    desk: Desk,
    number: usize,
    line: &[u8],
    out: &mut [u8; ANSWER_BYTES],
) -> io::Result<Desk>
    ensures value { IfOk result (λ d. d ≡ played desk line.now) }
    ensures out_after { out.new ≡ over (answered desk number line.now) out.old }
    ensures written { Writes result (W.contents writer.old) (W.contents writer.new) (answered desk number line.now) }
{
    let answer = answer_line(desk, number, line, out);
    send(writer, out, answer.bytes)?;
    Ok(answer.desk)
}

// Plays the line that is kept; the next one begins.
fn end_line<W: Write>(
    writer: &mut W,
    session: Session,
    line: &[u8],
    out: &mut [u8; ANSWER_BYTES],
) -> io::Result<Session>
    requires { session.kept ≤ length line.now }
    ensures out_after { IfOk result (λ s. log_of s line.now out.new ≡ next_line (log_of session line.now out.old)) }
    ensures kept_value { IfOk result (λ s. s.kept ≡ 0) }
    ensures written { Writes result (W.contents writer.old) (W.contents writer.new) (line_answer (log_of session line.now out.old)) }
{
    let lines = session.lines.wrapping_add(1);
    let desk = play_line(writer, session.desk, lines, &line[..session.kept], out)?;
    Ok(Session {
        desk,
        kept: 0,
        lines,
        ended: session.ended,
    })
}

// Keeps the bytes of a window from `at` up to `to`, where the line ends unless the window does.
fn take_in<W: Write>(
    writer: &mut W,
    session: Session,
    line: &mut [u8; MOST_KEPT],
    out: &mut [u8; ANSWER_BYTES],
    window: &[u8],
    at: usize,
    to: usize,
) -> io::Result<Session>
    requires { (session.kept ≤ most_kept) × (at ≤ to) × (to ≤ length window.now) }
    ensures out_after { IfOk result (λ s. log_of s line.new out.new ≡ stretched (log_of session line.old out.old) (take (to - at) (drop at window.now)) (nat_lt to (length window.now))) }
    ensures kept_le_most_kept { IfOk result (λ s. s.kept ≤ most_kept) }
    ensures written { Writes result (W.contents writer.old) (W.contents writer.new) (stretched_answers (log_of session line.old out.old) (take (to - at) (drop at window.now)) (nat_lt to (length window.now))) }
{
    let mut s = session;
    s.kept = keep(line, s.kept, &window[at..to]);
    let all: &[u8] = line;
    if to < window.len() {
        return end_line(writer, s, all, out);
    }
    Ok(s)
}

// Takes a window in: plays the lines that end in it, and keeps what it has of the next.
fn play_window<W: Write>(
    writer: &mut W,
    session: Session,
    line: &mut [u8; MOST_KEPT],
    out: &mut [u8; ANSWER_BYTES],
    window: &[u8],
) -> io::Result<Session>
    requires { session.kept ≤ most_kept }
    ensures out_after { IfOk result (λ s. log_of s line.new out.new ≡ heard (log_of session line.old out.old) window.now) }
    ensures kept_le_most_kept { IfOk result (λ s. s.kept ≤ most_kept) }
    ensures written { Writes result (W.contents writer.old) (W.contents writer.new) (heard_answers (log_of session line.old out.old) window.now) }
{
    // By positions: the pieces between newlines do not tell whether the last of them ends in one, which `take_in` has to know.
    let mut s = session;
    let mut at = 0;
    while at < window.len() {
        let to = newline(window, at);
        s = take_in(writer, s, line, out, window, at, to)?;
        at = to + 1;
    }
    Ok(s)
}

// Reads once, and takes in what came; at the end of the input, the newline that the last line may lack.
fn play_some<R: Read, W: Write>(
    reader: &mut R,
    writer: &mut W,
    session: Session,
    line: &mut [u8; MOST_KEPT],
    out: &mut [u8; ANSWER_BYTES],
) -> io::Result<Session>
    requires { (session.kept ≤ most_kept) × (session.ended ≡ false) }
    ensures comes_of { IfOk result (λ s. ComesOf (log_of session line.old out.old) (log_of s line.new out.new)) }
    ensures kept_le_most_kept { IfOk result (λ s. s.kept ≤ most_kept) }
    ensures streamed { IfOk result (λ s. Streamed (log_of session line.old out.old) (log_of s line.new out.new) (R.remaining reader.old) (R.remaining reader.new) (W.contents writer.old) (W.contents writer.new)) }
    ensures failed { OnErr result (Failed (log_of session line.old out.old) (R.remaining reader.old) (R.remaining reader.new) (W.contents writer.old) (W.contents writer.new)) }
{
    let mut window = [0u8; WINDOW];
    let n = reader.read(&mut window)?;
    let mut s = session;
    s.ended = n == 0;
    let kept = s.kept;
    let all: &[u8] = line;
    let heard = to_hear(&mut window, n, &all[..kept]);
    play_window(writer, s, line, out, &window[..heard])
}

// Reads to the end of the input, and takes in what comes. Nothing says that an input ends, so there are as many turns as no run uses up.
fn play_all<R: Read, W: Write>(
    reader: &mut R,
    writer: &mut W,
    session: Session,
    line: &mut [u8; MOST_KEPT],
    out: &mut [u8; ANSWER_BYTES],
) -> io::Result<Session>
    requires { (session.kept ≤ most_kept) × (session.ended ≡ false) }
    ensures comes_of { IfOk result (λ s. ComesOf (log_of session line.old out.old) (log_of s line.new out.new)) }
    ensures streamed { IfOk result (λ s. Streamed (log_of session line.old out.old) (log_of s line.new out.new) (R.remaining reader.old) (R.remaining reader.new) (W.contents writer.old) (W.contents writer.new)) }
    ensures failed { OnErr result (Failed (log_of session line.old out.old) (R.remaining reader.old) (R.remaining reader.new) (W.contents writer.old) (W.contents writer.new)) }
{
    let mut s = session;
    for _ in 0..u64::MAX {
        if s.ended {
            break;
        }
        s = play_some(reader, writer, s, line, out)?;
    }
    Ok(s)
}

// Plays the log that a reader gives to its end, on one desk that is empty at first, and sends each answer. A read or a write that fails ends it: the desk is
// then gone, and the lines that were read whole may lack their answers from some byte on.
pub fn play_log<R: Read, W: Write>(reader: &mut R, writer: &mut W) -> io::Result<Session>
    ensures played { IfOk result (λ s. Played s) }
    ensures answered { IfOk result (λ s. Answers s (R.remaining reader.old) (R.remaining reader.new) (W.contents writer.old) (W.contents writer.new)) }
    ensures cut_short { OnErr result (CutShort (R.remaining reader.old) (R.remaining reader.new) (W.contents writer.old) (W.contents writer.new)) }
{
    let mut line = [0u8; MOST_KEPT];
    let mut out = [0u8; ANSWER_BYTES];
    let session = Session {
        desk: Desk::empty(),
        kept: 0,
        lines: 0,
        ended: false,
    };
    play_all(reader, writer, session, &mut line, &mut out)
}
