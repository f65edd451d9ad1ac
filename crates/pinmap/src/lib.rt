// What a pin map is: its two forms, how many bytes a record and a map of each have, and the numbers in a record.
#![tactic(auto)]

pub mod numbers;

ghost use Rattle.std.specs.Prelude.{◌≡◌};
ghost use Rattle.pinmap.specs.Map.{record_size, most_bytes};

use board::PINS;

// A record of the old form has this many bytes.
pub const OLD_BYTES: usize = 12;

// A record of the new form has this many.
pub const NEW_BYTES: usize = 16;

// The form of a map: the old, of pins without net and part number, or the new.
#[derive(Clone, Copy)]
pub enum Form {
    Old,
    New,
}

impl Form {
    // How many bytes a record of this form has.
    pub fn record_bytes(self) -> usize
        ensures { result ≡ record_size self }
    {
        match self {
            Form::Old => OLD_BYTES,
            Form::New => NEW_BYTES,
        }
    }

    // How many bytes a map of this form has at most.
    #[tactic(auto, using(crate::proofs::Sizes::size_range, crate::proofs::Sizes::most_records_lem))]
    pub fn most_bytes(self) -> usize
        ensures { result ≡ most_bytes self }
    {
        PINS * self.record_bytes()
    }
}
