// CMD2: the smallest CID among the Ready cards, and who holds it. That the holders are those that are
// heard to the last bit is proved.
ghost use Rattle.std.specs.Prelude.{◌&&◌, ◌≡◌};
ghost use Rattle.bus.specs.Bus.{is_ready};
ghost use Rattle.bus.specs.Contest.{cid_of, low_for, Held, HeldAll};
ghost use Rattle.shared_line.specs.Lowest.{is_low};

use crate::{Bus, places};
use card_record::Card;
use states::State;

// Whether a card is Ready, and what its type says of its CID.
fn is_ready(card: Card) -> bool
    ensures answer { result ≡ is_ready card }
    ensures bytes { Held card }
{
    !card.mode.spi && matches!(card.link.state, State::Ready)
}

// The smallest CID among the Ready cards, for CMD2 alone. What was found is made anew only where a
// lower one comes, since it is copied.
#[tactic(auto, unfolding(crate::specs::Contest::low_for))]
pub fn lowest(bus: Bus, index: u8) -> Option<[u8; 16]>
    ensures answer { result ≡ low_for bus index }
    ensures bytes { HeldAll bus index }
{
    if index != 2 {
        return shared_line::nobody();
    }
    let end = places(bus.count);
    let mut low = shared_line::nobody();
    for i in 0..end {
        let card = bus.cards[i];
        if is_ready(card) {
            let cid = card.registers.cid;
            if shared_line::is_lower(low, cid) {
                low = Some(cid);
            }
        }
    }
    low
}

// Whether a card contends in CMD2: some Ready card's CID was found, and it is Ready itself. What was
// found is handed over only where it is asked for (`holds`), since it is copied.
pub fn contends(any: bool, card: Card) -> bool
    ensures { result ≡ (any && is_ready card) }
{
    any && is_ready(card)
}

// Whether a card that contends holds the smallest CID.
pub fn holds(low: Option<[u8; 16]>, card: Card) -> bool
    ensures { result ≡ is_low low (cid_of card) }
{
    shared_line::is_low(low, card.registers.cid)
}
