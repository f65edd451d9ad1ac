// Words, numbers and digits over bytes: a line cut into words, words read, and numbers put into a lent buffer.
#![tactic(auto)]

pub mod numbers;
pub mod put;
pub mod words;

// A map has up to so many pairs of hex digits, a byte each.
pub const MOST_PAIRS: usize = 4200;

// A list has up to so many numbers.
pub const MOST_NUMBERS: usize = 40;

// The most bytes that a call lends.
pub const MOST_ROOM: usize = 1024;

// An answer has room for so many bytes.
pub const ANSWER_BYTES: usize = 8192;
