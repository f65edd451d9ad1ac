// Input of any length taken in window by window: where a line ends in a window, and the line so far kept in a lent buffer.
ghost use Rattle.std.specs.Prelude.{◌≡◌, ◌+◌, ◌-◌, ◌<◌, ◌≤◌, min, length, take};
ghost use Rattle.std.proofs.lemmas.List.Edits.{sets};
ghost use Rattle.text.specs.Words.{newline as newlineByte, stop_at};
ghost use Rattle.play.specs.Log.{most_kept, bytes_heard, window_heard};

use text::words::stop_at;

// Of a longer line it is enough to keep so many bytes.
pub(crate) const MOST_KEPT: usize = 16386;

// So many bytes are read at once.
pub(crate) const WINDOW: usize = 1024;

// Where the next newline from `at` on stands in a window, or the window's end.
pub(crate) fn newline(window: &[u8], at: usize) -> usize
    requires { at ≤ length window.now }
    ensures value { result ≡ stop_at newlineByte window.now at }
    ensures lower_bound { (at ≤ result) × (result ≤ length window.now) }
{
    stop_at(window, at, b'\n')
}

// Keeps bytes of a line after those kept so far, as far as the room goes, and answers how many are kept now.
pub(crate) fn keep(line: &mut [u8; MOST_KEPT], kept: usize, bytes: &[u8]) -> usize
    requires { kept ≤ most_kept }
    ensures value { result ≡ min (kept + length bytes.now) most_kept }
    ensures line_after { line.new ≡ sets line.old kept (take (most_kept - kept) bytes.now) }
{
    let n = bytes.len().min(MOST_KEPT - kept);
    line[kept..kept + n].copy_from_slice(&bytes[..n]);
    kept + n
}

// Where no byte came, the input has ended: the window gets the newline that the last line lacks, if one was begun. Says how many bytes are to be taken in.
#[tactic(auto, using(crate::proofs::Ended::ended_window))]
pub(crate) fn to_hear(window: &mut [u8], came: usize, line: &[u8]) -> usize
    requires { (came ≤ length window.old) × (0 < length window.old) }
    ensures value { result ≡ bytes_heard came line.now }
    ensures window_after { window.new ≡ window_heard came window.old }
    ensures in_bounds { (result ≤ length window.new) × (result ≡ length (take result window.new)) }
{
    if came != 0 {
        return came;
    }
    window[0] = b'\n';
    usize::from(!line.is_empty())
}
