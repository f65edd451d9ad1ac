// What pins draw and the board sheet that feeds them: loads, their ranges and what they are in amps. Everything is f32, one rounding an operation.
#![tactic(auto)]

ghost use Rattle.std.specs.Prelude.{◌≡◌};
ghost use Rattle.tree.specs.Growth.{pins_of};
ghost use Rattle.loads.specs.Loads.{sheet_fits, load_fits, loads_fit, amps_of};

use board::{PINS, Spot};

// A board sheet: supply volts, and ohms per step.
#[derive(Clone, Copy)]
pub struct Sheet {
    pub volts: f32,
    pub ohms: f32,
}

// A load: so many amps, so many watts, or none.
#[derive(Clone, Copy)]
pub enum Load {
    Amps(f32),
    Watts(f32),
    Spare,
}

impl Sheet {
    // Whether supply volts are from 1 to 60, and ohms per step from 0 to 0.01; a NaN is in no range.
    #[tactic(auto, using(crate::proofs::Between::ranges), unfolding(crate::specs::Loads::sheet_fits, basics::specs::Tests::both))]
    pub fn fits(self) -> bool
        ensures { result ≡ sheet_fits self }
    {
        (1.0..=60.0).contains(&self.volts) && (0.0..=0.01).contains(&self.ohms)
    }
}

impl Load {
    // Whether amps are from 0 to 500, or watts from 0 to 12,000; a NaN is in no range.
    #[tactic(auto, using(crate::proofs::Between::ranges), unfolding(crate::specs::Loads::load_fits, basics::specs::Tests::both))]
    fn fits(self) -> bool
        ensures { result ≡ load_fits self }
    {
        match self {
            Load::Amps(a) => (0.0..=500.0).contains(&a),
            Load::Watts(w) => (0.0..=12000.0).contains(&w),
            Load::Spare => true,
        }
    }

    // The amps of a load: watts by one division by the supply volts.
    #[tactic(auto, unfolding(crate::specs::Loads::amps_of))]
    pub fn amps(self, sheet: Sheet) -> f32
        ensures { result ≡ amps_of sheet self }
    {
        match self {
            Load::Amps(a) => a,
            Load::Watts(w) => w / sheet.volts,
            Load::Spare => 0.0,
        }
    }
}

// Whether the loads of the pins that are there are in their ranges.
pub fn loads_fit(loads: &[Load; PINS], spots: &[Spot; PINS]) -> bool
    ensures { result ≡ loads_fit loads.now (pins_of spots.now) }
{
    loads
        .iter()
        .zip(spots)
        .all(|(load, spot)| spot.is_none() || load.fits())
}
