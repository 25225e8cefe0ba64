// How many bytes a record of a made card has, its kind among them.
//
// Offers: `used`.
ghost use Rattle.std.specs.Prelude.{◌≡◌};
ghost use Rattle.cardline_script.specs.Whole.{used_by, used_looked, used_wiring, used_going};

use crate::{Calling, Going, Looking, Wiring};

fn used_by(calling: Calling) -> usize
    ensures { result ≡ used_by calling }
{
    match calling {
        Calling::Frame { length, .. } => length as usize + 2,
        Calling::BlockIn(n) => n as usize + 3,
        Calling::BlockOut(_) => 3,
        Calling::WorkDone | Calling::PowerOn => 1,
    }
}

fn used_looked(looking: Looking) -> usize
    ensures { result ≡ used_looked looking }
{
    match looking {
        Looking::Card | Looking::Mode => 1,
        Looking::Memory { .. } => 6,
        Looking::Lend(_) => 5,
        Looking::Poke { .. } => 3,
    }
}

fn used_wiring(wiring: Wiring) -> usize
    ensures { result ≡ used_wiring wiring }
{
    match wiring {
        Wiring::Frame { .. } => 7,
        Wiring::Block { length, .. } => length as usize + 5,
        Wiring::Check(length) => length as usize + 3,
    }
}

pub fn used(going: Going) -> usize
    ensures answer { result ≡ used_going going }
{
    match going {
        Going::Call(calling) => used_by(calling),
        Going::Look(looking) => used_looked(looking),
        Going::Wire(wiring) => used_wiring(wiring),
    }
}
