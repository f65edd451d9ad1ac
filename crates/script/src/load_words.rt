// Loads read from a word: whether it lists loads, and the load that it gives to each pin number.
ghost use Rattle.std.specs.Prelude.{◌≡◌};
ghost use Rattle.basics.specs.Tests.{choose};
ghost use Rattle.script.specs.Loads.{is_load, load_of, is_load_row, is_loads, loads_in};

use board::PINS;
use loads::Load;
use text::numbers::{NOTHING, fill_row, float, is_bits, is_row_of};

// A word as a load.
#[tactic(auto, using(crate::proofs::Loading::loading))]
fn load(word: &[u8]) -> Option<Load>
    ensures { result ≡ choose (is_load word.now) (Some (load_of word.now)) None }
{
    let (letter, bits) = word.split_first()?;
    match letter {
        b'a' if is_bits(bits) => Some(Load::Amps(float(bits))),
        b'w' if is_bits(bits) => Some(Load::Watts(float(bits))),
        b's' if bits.is_empty() => Some(Load::Spare),
        _ => None,
    }
}

// Whether a word is loads separated by single commas, few enough.
fn is_load_row(word: &[u8]) -> bool
    ensures { result ≡ is_load_row word.now }
{
    is_row_of(word, PINS, |piece| load(piece).is_some())
}

// Whether a word is such loads, or a minus for none.
#[tactic(auto, using(crate::proofs::Loading::loads_is))]
pub(crate) fn is_loads(word: &[u8]) -> bool
    ensures { result ≡ is_loads word.now }
{
    word == NOTHING || is_load_row(word)
}

// The load that a word gives to each pin number: those of its row, and spare for the pins after the last.
pub(crate) fn loads_in(word: &[u8]) -> [Load; PINS]
    ensures { result ≡ loads_in word.now }
{
    let mut loads = [Load::Spare; PINS];
    if is_load_row(word) {
        fill_row(word, &mut loads, |piece| {
            load(piece).unwrap_or(Load::Spare)
        });
    }
    loads
}
