// A line cut into words.
ghost use Rattle.std.specs.Prelude.{◌≡◌, ◌≤◌, length, drop};
ghost use Rattle.text.specs.Words.{without_return, spaces_of, stop_at, words_of, word as word_in};

// A line without a carriage return at its end.
pub fn without_return(line: &[u8]) -> &[u8]
    ensures { result.now ≡ without_return line.now }
{
    line.strip_suffix(b"\r").unwrap_or(line)
}

// Where the next separator from `at` on stands, or the text's end.
pub fn stop_at(text: &[u8], at: usize, separator: u8) -> usize
    requires { at ≤ length text.now }
    ensures { result ≡ stop_at separator text.now at }
{
    let rest = &text[at..];
    at + rest
        .iter()
        .position(|b| *b == separator)
        .unwrap_or(rest.len())
}

// What is left of a text behind the spaces that it begins with.
fn without_spaces(text: &[u8]) -> &[u8]
    ensures { result.now ≡ drop (spaces_of text.now) text.now }
{
    let spaces = text.iter().position(|b| *b != b' ').unwrap_or(text.len());
    &text[spaces..]
}

// The word of a number, counted from 0; empty where there are not so many.
// By what is left of the text behind each word: the library's `split` yields an empty piece for each space of many, which takes up to three times the time.
#[tactic(auto, using(crate::proofs::Cutting::stop_within))]
pub fn word(text: &[u8], number: usize) -> &[u8]
    ensures { result.now ≡ word_in number (words_of text.now) }
{
    let mut rest = without_spaces(text);
    for _ in 0..number {
        rest = without_spaces(&rest[stop_at(rest, 0, b' ')..]);
    }
    &rest[..stop_at(rest, 0, b' ')]
}

// How many words a text has.
// In a `while` for the same reason: from word to word, and over the spaces between two in one search.
#[tactic(auto, using(crate::proofs::Cutting::stop_within))]
pub fn count_words(text: &[u8]) -> usize
    ensures { result ≡ length (words_of text.now) }
{
    let mut count = 0;
    let mut rest = without_spaces(text);
    while !rest.is_empty() {
        rest = without_spaces(&rest[stop_at(rest, 0, b' ')..]);
        count += 1;
    }
    count
}
