// Rounds of CMD2 and CMD3 on a bus: who is reached when, and why a clone can't pass unseen. The
// statement is in specs/Demand3.antt, the theorems in proofs/. The only code says what the types of
// a bus say, so that demand 3 has no condition that a caller could break.
//
// Offers: `well_formed`.
#![tactic(auto)]

ghost use Rattle.std.specs.Prelude.{true, ◌≡◌};
ghost use Rattle.rounds.specs.Demand3.{CidBytes, WellFormed};

use bus::Bus;
use card_record::Card;

// A card's CID is 16 bytes.
fn cid_bytes(card: Card) -> bool
    ensures { CidBytes card.registers.cid }
{
    true
}

// A bus has 30 places, and each CID in them is 16 bytes: every value of the type has it.
pub fn well_formed(bus: Bus) -> bool
    ensures answer { result ≡ true }
    ensures formed { WellFormed bus }
{
    for card in bus.cards {
        cid_bytes(card);
    }
    true
}
