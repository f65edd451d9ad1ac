// Words read as numbers, as lists of numbers, as bytes and as an f32.
// Read by functions and not by the library's FromStr: a log's words are bytes, with a grammar and bounds of their own (Numbers: number_of, coordinate_of).
ghost use Rattle.std.specs.Prelude.{◌≡◌, IfSome, Bool, List, ℕ, map, ◌+◌, ◌*◌, ◌≤◌, min, length};
ghost use Rattle.text.specs.Text.{over};
ghost use Rattle.text.specs.Words.{comma, pieces};
ghost use Rattle.text.specs.Numbers.{most_number, most_pairs, most_numbers, all_digits, value_of, number_of, coordinate_of, is_row, is_row_of, listed, is_list, hex_value, bytes_of, is_spelled, is_map, spelled, float_digits, all_hex, is_bits, hex_from, float_of};

use crate::words::stop_at;
use crate::{MOST_NUMBERS, MOST_PAIRS};
use std::num::f32_from_bits_with_nan;

// The largest number of a seat or a pin.
pub const MOST: usize = 4294967295;

// One more: it stands for all larger numbers.
const BEYOND: usize = MOST + 1;

// x and y go up to so much.
const MOST_ABOVE: usize = 2147483647;

// x and y go down to so much below zero.
const MOST_BELOW: usize = MOST_ABOVE + 1;

// A map has up to so many hex digits.
const MOST_DIGITS: usize = MOST_PAIRS * 2;

// The word for none, in place of a list and of a map.
pub const NOTHING: &[u8] = b"-";

// The bits of an f32 are spelled by so many hex digits.
const FLOAT_DIGITS: usize = 8;

// Whether every byte of a word is a digit.
// all_digits and all_hex are a chain each over the library's own test of a byte, and is_row one row of the generic is_row_of.
fn all_digits(word: &[u8]) -> bool
    ensures { result ≡ all_digits word.now }
{
    word.iter().all(|b| b.is_ascii_digit())
}

// What the digits of a word come to, up to the number beyond all ranges.
// Cut at that number before each digit: one comparison, where the library's saturating product and sum test each of theirs.
fn value(word: &[u8]) -> usize
    ensures { result ≡ min (value_of word.now) (most_number + 1) }
{
    word.iter()
        .fold(0, |value: usize, b| {
            value.min(BEYOND) * 10 + b.saturating_sub(b'0') as usize
        })
        .min(BEYOND)
}

// A word as a number from 0 to `top`.
#[tactic(auto, using(crate::proofs::Values::number_is))]
pub fn number(word: &[u8], top: usize) -> Option<usize>
    requires { top ≤ most_number }
    ensures value { result ≡ number_of top word.now }
    ensures within { IfSome result (λ n. n ≤ top) }
{
    if word.is_empty() || !all_digits(word) {
        return None;
    }
    let n = value(word);
    if n <= top { Some(n) } else { None }
}

// A word as x or y.
pub fn coordinate(word: &[u8]) -> Option<i32>
    ensures { result ≡ coordinate_of word.now }
{
    match word.strip_prefix(b"-") {
        Some(digits) => Some(-(number(digits, MOST_BELOW)? as i64) as i32),
        None => Some(number(word, MOST_ABOVE)? as i32),
    }
}

// Whether a word is words of one form separated by single commas, up to so many.
pub fn is_row_of<F: Fn(&[u8]) -> bool>(word: &[u8], most: usize, form: F) -> bool
    requires { F.IsAlwaysCallable form }
    ensures { (test : List ℕ → Bool) → ((piece : _) (b : Bool) → F.post form piece b → b ≡ test piece.now) → result ≡ is_row_of test most word.now }
{
    word.split(|b| *b == b',')
        .enumerate()
        .all(|(i, piece)| i < most && form(piece))
}

// Whether a word is numbers separated by single commas, few enough.
fn is_row(word: &[u8]) -> bool
    ensures { result ≡ is_row word.now }
{
    is_row_of(word, MOST_NUMBERS, |piece| coordinate(piece).is_some())
}

// Whether a word is a list of numbers, or a minus for none.
#[tactic(auto, using(crate::proofs::Values::list_is))]
pub fn is_list(word: &[u8]) -> bool
    ensures { result ≡ is_list word.now }
{
    word == NOTHING || is_row(word)
}

// Stores what the words between single commas come to from the start of a list on, and answers how many there are.
#[tactic(auto, using(crate::proofs::Cutting::stop_from, crate::proofs::Cutting::stop_within))]
pub fn fill_row<T: Copy, const N: usize, F: Fn(&[u8]) -> T>(
    word: &[u8],
    values: &mut [T; N],
    value: F,
) -> usize
    requires callable { F.IsAlwaysCallable value }
    requires room { length (pieces comma word.now) ≤ N }
    ensures count { result ≡ length (pieces comma word.now) }
    ensures values_after { (of : List ℕ → T) → ((piece : _) (v : T) → F.post value piece v → v ≡ of piece.now) → values.new ≡ over (map of (pieces comma word.now)) values.old }
{
    let mut count = 0;
    let mut at = 0;

    // By positions, from comma to comma: of a `for` over the words themselves, in a function with type parameters, the check makes no proof.
    while at <= word.len() {
        let to = stop_at(word, at, b',');
        values[count] = value(&word[at..to]);
        count += 1;
        at = to + 1;
    }
    count
}

// Writes the numbers of a list from the start on, and answers how many there are.
pub fn fill_list(word: &[u8], values: &mut [i32; MOST_NUMBERS]) -> usize
    ensures value { (result ≡ length (listed word.now)) × (result ≤ most_numbers) }
    ensures values_after { values.new ≡ over (listed word.now) values.old }
{
    if is_row(word) {
        fill_row(word, values, |piece| coordinate(piece).unwrap_or(0))
    } else {
        0
    }
}

// The value of a hex digit.
#[tactic(auto, using(crate::proofs::Values::hex_value_is))]
fn hex_value(b: u8) -> u8
    ensures value { result ≡ hex_value b }
    ensures upper_bound { result ≤ 15 }
{
    match b {
        b'0'..=b'9' => b - b'0',
        b'a'..=b'f' => b - b'a' + 10,
        b'A'..=b'F' => b - b'A' + 10,
        _ => 0,
    }
}

// Whether every byte of a word is a hex digit.
fn all_hex(word: &[u8]) -> bool
    ensures { result ≡ all_hex word.now }
{
    word.iter().all(|b| b.is_ascii_hexdigit())
}

// Whether a word is one to 4,200 pairs of hex digits.
#[tactic(auto, using(crate::proofs::Values::spelled_is))]
fn is_spelled(word: &[u8]) -> bool
    ensures { result ≡ is_spelled word.now }
{
    let n = word.len();
    0 < n && n <= MOST_DIGITS && n % 2 == 0 && all_hex(word)
}

// Whether a word is a map, or a minus for an empty one.
#[tactic(auto, using(crate::proofs::Values::map_is))]
pub fn is_map(word: &[u8]) -> bool
    ensures { result ≡ is_map word.now }
{
    word == NOTHING || is_spelled(word)
}

// The byte that two hex digits spell.
// By hand: the library reads hex digits of a text as one number, and hex_value is what the contracts say of each.
fn joined(high: u8, low: u8) -> u8
    ensures { result ≡ hex_value high * 16 + hex_value low }
{
    hex_value(high) * 16 + hex_value(low)
}

// Writes the bytes that pairs of hex digits spell from the start on, and answers how many there are.
fn fill_pairs(word: &[u8], map: &mut [u8; MOST_PAIRS]) -> usize
    requires { length word.now ≤ most_pairs * 2 }
    ensures value { (result ≡ length (bytes_of word.now)) × (result ≤ most_pairs) }
    ensures map_after { map.new ≡ over (bytes_of word.now) map.old }
{
    let (pairs, _) = word.as_chunks::<2>();
    for (i, pair) in pairs.iter().enumerate() {
        let [high, low] = *pair;
        map[i] = joined(high, low);
    }
    pairs.len()
}

// Writes the bytes of a map from the start on, and answers how many there are.
pub fn fill_map(word: &[u8], map: &mut [u8; MOST_PAIRS]) -> usize
    ensures value { (result ≡ length (spelled word.now)) × (result ≤ most_pairs) }
    ensures map_after { map.new ≡ over (spelled word.now) map.old }
{
    if is_spelled(word) {
        fill_pairs(word, map)
    } else {
        0
    }
}

// Whether a word spells the bits of an f32.
#[tactic(auto, using(crate::proofs::Values::bits_is))]
pub fn is_bits(word: &[u8]) -> bool
    ensures { result ≡ is_bits word.now }
{
    word.len() == FLOAT_DIGITS && all_hex(word)
}

// What no more than eight hex digits come to.
fn bits(digits: &[u8]) -> u32
    requires { length digits.now ≤ float_digits }
    ensures { result ≡ hex_from 0 digits.now }
{
    let mut n = 0;
    for b in digits {
        n = n * 16 + hex_value(*b) as u32;
    }
    n
}

// The f32 whose bits a word spells.
pub fn float(word: &[u8]) -> f32
    ensures { result ≡ float_of word.now }
{
    f32_from_bits_with_nan(bits(&word[..word.len().min(FLOAT_DIGITS)]))
}
