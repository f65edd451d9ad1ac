// What a call that makes an edit states, and the edit that it makes on the pins of a drawing.
ghost use Rattle.std.specs.Prelude.{◌≡◌, ◌<◌};
ghost use Rattle.board.specs.Spots.{most_pins};
ghost use Rattle.edits.specs.Stated.{edit_of};
ghost use Rattle.edits.specs.Changes.{pin_of};

use crate::Edit;
use board::{PINS, Place};
use drawing::{Held, Pin};

// What a call that makes an edit states: a pin placed with what it holds, moved to a place, or removed.
#[derive(Clone, Copy)]
pub enum Making {
    Placing(usize, Held),
    Moving(usize, Place),
    Removing(usize),
}

// The edit that such a call makes on these pins, with what is needed to take it back; the pin that it names is one of the 32.
pub fn edit_of(pins: &[Pin; PINS], making: Making) -> Edit
    requires { pin_of (edit_of pins.now making) < most_pins }
    ensures { result ≡ edit_of pins.now making }
{
    match making {
        Making::Placing(pin, held) => Edit::Placed(pin as u8, held),
        Making::Moving(pin, to) => {
            let from = drawing::place_of(drawing::pin_at(pins, pin));
            Edit::Moved(pin as u8, from, to)
        }
        Making::Removing(pin) => {
            Edit::Removed(pin as u8, drawing::held_by(drawing::pin_at(pins, pin)))
        }
    }
}
