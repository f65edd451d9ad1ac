// Drawings: the pins of one, what stands at each pin number, the feed of each net, and the rules that they keep.
#![tactic(auto)]

ghost use Rattle.std.specs.Prelude.{◌≡◌};
ghost use Rattle.basics.specs.Tests.{each_of};
ghost use Rattle.board.specs.Spots.{crowded};
ghost use Rattle.drawing.specs.Pins.{is_net, is_of, has_net, spot_of, spots_of, feed_spot, feed_of, lawful, pin_at, held_by, stands_at};

use board::{MIDDLE, PINS, Place, Spot, spots};

// Nets go from 1 to this.
pub const NETS: u32 = 8;

// What a pin holds: its place, its net and its part number.
#[derive(Clone, Copy, PartialEq, Eq)]
pub struct Held {
    pub place: Place,
    pub net: u32,
    pub part: u32,
}

// What a drawing has at one pin number: nothing, or a pin that is there, with what it holds.
pub type Pin = Option<Held>;

// The pins of a drawing without pins.
pub const NO_PINS: [Pin; PINS] = [None; PINS];

// Whether a net is one from 1 to 8.
#[tactic(auto, unfolding(crate::specs::Pins::is_net, basics::specs::Tests::both))]
pub fn is_net(net: u32) -> bool
    ensures { result ≡ is_net net }
{
    0 < net && net <= NETS
}

// Whether a pin is there, and of a net.
#[tactic(auto, unfolding(crate::specs::Pins::is_of))]
fn is_of(pin: Pin, net: u32) -> bool
    ensures { result ≡ is_of net pin }
{
    pin.is_some_and(|held| held.net == net)
}

// Whether a pin, if it is there, has a net from 1 to 8.
#[tactic(auto, unfolding(crate::specs::Pins::has_net))]
pub fn has_net(pin: Pin) -> bool
    ensures { result ≡ has_net pin }
{
    pin.is_none_or(|held| is_net(held.net))
}

// What a pin holds; as if it stood in the middle of the board, of no net and with part number 0, where it is not there.
#[tactic(auto, unfolding(crate::specs::Pins::held_by))]
pub fn held_by(pin: Pin) -> Held
    ensures { result ≡ held_by pin }
{
    pin.unwrap_or(Held {
        place: MIDDLE,
        net: 0,
        part: 0,
    })
}

// Where a pin stands; the middle of the board where it is not there.
pub fn place_of(pin: Pin) -> Place
    ensures { result ≡ (held_by pin).place }
{
    held_by(pin).place
}

// What stands at the number of a pin: where it stands, and nothing else of what it holds.
#[tactic(auto, unfolding(crate::specs::Pins::spot_of))]
pub fn spot_of(pin: Pin) -> Spot
    ensures { result ≡ spot_of pin }
{
    pin.map(|held| held.place)
}

// What stands at each pin number of a drawing.
#[tactic(auto, unfolding(crate::specs::Pins::spots_of))]
pub fn spots_of(pins: &[Pin; PINS]) -> [Spot; PINS]
    ensures { result ≡ spots_of pins.now }
{
    pins.map(spot_of)
}

// What the feed of a net has at the number of a pin: a pin of another net is not in it.
#[tactic(auto, unfolding(crate::specs::Pins::feed_spot, basics::specs::Tests::choose))]
fn feed_spot(pin: Pin, net: u32) -> Spot
    ensures { result ≡ feed_spot net pin }
{
    if is_of(pin, net) { spot_of(pin) } else { None }
}

// The feed of a net: its pins alone, by their own numbers.
#[tactic(auto, unfolding(crate::specs::Pins::feed_of))]
pub fn feed_of(pins: &[Pin; PINS], net: u32) -> [Spot; PINS]
    ensures { result ≡ feed_of pins.now net }
{
    pins.map(|pin| feed_spot(pin, net))
}

// Whether each pin that is there has a net from 1 to 8.
fn have_nets(pins: &[Pin; PINS]) -> bool
    ensures { result ≡ each_of has_net pins.now }
{
    pins.iter().all(|&pin| has_net(pin))
}

// Whether the pins keep the rules of a drawing.
#[tactic(auto, unfolding(crate::specs::Pins::lawful, basics::specs::Tests::both))]
pub fn keep_rules(pins: &[Pin; PINS]) -> bool
    ensures { result ≡ lawful pins.now }
{
    let at = spots_of(pins);
    spots::are_within(&at) && spots::are_apart(&at) && have_nets(pins)
}

// Whether a pin other than `pin` stands too near to a place.
pub fn is_crowded(pins: &[Pin; PINS], pin: usize, at: Place) -> bool
    ensures { result ≡ crowded (spots_of pins.now) pin at }
{
    spots::is_crowded(&spots_of(pins), pin, at)
}

// Whether a pin is there at a place.
#[tactic(auto, using(board::proofs::Board::place_told), unfolding(crate::specs::Pins::stands_at))]
pub fn stands_at(pin: Pin, at: Place) -> bool
    ensures { result ≡ stands_at pin at }
{
    pin.is_some_and(|held| held.place == at)
}

// What a drawing has at a pin number; above 31, a pin that is absent.
pub fn pin_at(pins: &[Pin; PINS], pin: usize) -> Pin
    ensures { result ≡ pin_at pins.now pin }
{
    pins.get(pin).copied().flatten()
}
