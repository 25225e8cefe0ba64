// The socket (document 01, "How a card takes a frame"): "the card record stays in its place and is
// altered there". One thin call, which is the step of crates/card.
//
// Offers: `socket`, `step_in_place`.
#![tactic(auto)]

ghost use Rattle.std.specs.Prelude.{◌≡◌, length};
ghost use Rattle.card.specs.Step.{step_of, lent_after, output_of};
ghost use Rattle.card_blocks.specs.Lending.{held, Leaves};
ghost use Rattle.store.specs.Lent.{seen};

use card::Call;
use card_blocks::{Lending, Reply, Stepped};
use card_record::Card;

// One call on a card in its place.
pub fn socket(
    card: &mut Card,
    call: Call,
    input: &[u8],
    lent: &mut Lending,
    out: &mut [u8],
) -> Reply
    ensures answer { result ≡ (step_of card.old call input.now (seen (held lent.old)) (length out.old)).reply }
    ensures record { card.new ≡ (step_of card.old call input.now (seen (held lent.old)) (length out.old)).card }
    ensures lent { Leaves lent.old lent.new (lent_after card.old call input.now (held lent.old)) }
    ensures output { out.new ≡ output_of card.old call (held lent.old) out.old }
{
    let stepped = card::step(*card, call, input, lent, out);
    *card = stepped.card;
    stepped.reply
}

// The same for whoever has the record by value: it is put into a place, altered there by `socket`,
// and given back.
pub fn step_in_place(
    card: Card,
    call: Call,
    input: &[u8],
    lent: &mut Lending,
    out: &mut [u8],
) -> Stepped
    ensures answer { result ≡ step_of card call input.now (seen (held lent.old)) (length out.old) }
    ensures lent { Leaves lent.old lent.new (lent_after card call input.now (held lent.old)) }
    ensures output { out.new ≡ output_of card call (held lent.old) out.old }
{
    let mut place = card;
    let reply = socket(&mut place, call, input, lent, out);
    Stepped { card: place, reply }
}
