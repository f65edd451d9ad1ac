// Bytes, numbers, places and an f32 put into a lent buffer from a position on, with the position after them told.
// The buffer and the position are two parameters, here and above: what the rest of the lent buffer holds is promised too (answer::answer_line), which a text that owns its
// buffer and its length could not say.
// No struct that borrows both, since it would hide the contents that each contract tells; and no Display: each contract says which bytes are put, and where.
ghost use Rattle.std.specs.Prelude.{◌≡◌, ◌++◌, ◌+◌, ◌*◌, ◌≤◌, ◌<◌, length};
ghost use Rattle.std.proofs.lemmas.List.Edits.{sets};
ghost use Rattle.text.specs.Text.{answer_bytes};
ghost use Rattle.text.specs.Numbers.{float_digits};
ghost use Rattle.text.specs.Digits.{most_decimal_bytes, most_integer_bytes, most_place_bytes, decimal, integer, place_text, hex_digit, hex, float_text};

use crate::ANSWER_BYTES;
use board::Place;
use std::num::f32_to_bits_with_nan;

// Puts bytes at a position, and answers the position after them.
pub fn put(out: &mut [u8; ANSWER_BYTES], at: usize, bytes: &[u8]) -> usize
    requires { at + length bytes.now ≤ answer_bytes }
    ensures value { result ≡ at + length bytes.now }
    ensures out_after { out.new ≡ sets out.old at bytes.now }
{
    let end = at + bytes.len();
    out[at..end].copy_from_slice(bytes);
    end
}

// Puts the decimal digits of a number at a position.
// A call of itself and no loop: the last digit goes where those before it end.
pub fn put_decimal(out: &mut [u8; ANSWER_BYTES], at: usize, n: usize) -> usize
    requires { at + most_decimal_bytes ≤ answer_bytes }
    ensures value { (result ≡ at + length (decimal n)) × (result ≤ at + most_decimal_bytes) }
    ensures out_after { out.new ≡ sets out.old at (decimal n) }
{
    if n < 10 {
        out[at] = b'0' + n as u8;
        return at + 1;
    }
    let next = put_decimal(out, at, n / 10);
    out[next] = b'0' + (n % 10) as u8;
    next + 1
}

// Puts a label and a number after it.
pub fn put_field(out: &mut [u8; ANSWER_BYTES], at: usize, label: &[u8], n: usize) -> usize
    requires { at + length label.now + most_decimal_bytes ≤ answer_bytes }
    ensures value { (result ≡ at + length (label.now ++ decimal n)) × (result ≤ at + length label.now + most_decimal_bytes) }
    ensures out_after { out.new ≡ sets out.old at (label.now ++ decimal n) }
{
    let next = put(out, at, label);
    put_decimal(out, next, n)
}

// Puts a label and a number with its sign after it.
fn put_integer(out: &mut [u8; ANSWER_BYTES], at: usize, label: &[u8], z: i32) -> usize
    requires { at + length label.now + most_integer_bytes ≤ answer_bytes }
    ensures value { (result ≡ at + length (label.now ++ integer z)) × (result ≤ at + length label.now + most_integer_bytes) }
    ensures out_after { out.new ≡ sets out.old at (label.now ++ integer z) }
{
    let next = put(out, at, label);
    let from_zero = z.unsigned_abs() as usize;
    if z < 0 {
        return put_field(out, next, b"-", from_zero);
    }
    put_decimal(out, next, from_zero)
}

// A hex digit, in small letters.
// By hand: the library prints hex digits as text, and hex_digit (text/Digits) says which byte is put.
fn hex_digit(d: u8) -> u8
    requires { d < 16 }
    ensures { result ≡ hex_digit d }
{
    if d < 10 { b'0' + d } else { b'a' + (d - 10) }
}

// Puts two hex digits for each byte at a position.
pub fn put_hex(out: &mut [u8; ANSWER_BYTES], at: usize, bytes: &[u8]) -> usize
    requires { at + length bytes.now * 2 ≤ answer_bytes }
    ensures value { (result ≡ at + length (hex bytes.now)) × (result ≡ at + length bytes.now * 2) }
    ensures out_after { out.new ≡ sets out.old at (hex bytes.now) }
{
    let mut next = at;
    for b in bytes {
        next = put(out, next, &[hex_digit(*b / 16), hex_digit(*b % 16)]);
    }
    next
}

// Puts a label, x, a space and y.
pub fn put_place(out: &mut [u8; ANSWER_BYTES], at: usize, label: &[u8], place: Place) -> usize
    requires { at + length label.now + most_place_bytes ≤ answer_bytes }
    ensures value { (result ≡ at + length (place_text label.now place)) × (result ≤ at + length label.now + most_place_bytes) }
    ensures out_after { out.new ≡ sets out.old at (place_text label.now place) }
{
    let next = put_integer(out, at, label, place.x);
    put_integer(out, next, b" ", place.y)
}

// Puts the bits of an f32 as eight hex digits at a position.
pub fn put_float(out: &mut [u8; ANSWER_BYTES], at: usize, x: f32) -> usize
    requires { at + float_digits ≤ answer_bytes }
    ensures value { (result ≡ at + length (float_text x)) × (result ≡ at + float_digits) }
    ensures out_after { out.new ≡ sets out.old at (float_text x) }
{
    put_hex(out, at, &f32_to_bits_with_nan(x).to_be_bytes())
}
