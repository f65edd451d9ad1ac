// Wires the pin map on standard input, and prints the answer.
#![tactic(auto)]

use text::ANSWER_BYTES;

// Reads as much of a map as is enough, and prints what is answered.
fn main() {
    let mut map = mapped::window();
    let mut out = [0u8; ANSWER_BYTES];
    let kept = io::read_full(0, &mut map);
    let printed = mapped::map_answer(&map[..kept], &mut out);
    io::write_all(1, &out[..printed]);
}
