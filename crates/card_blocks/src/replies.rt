// The answers of a card's calls.
ghost use Rattle.std.specs.Prelude.{◌≡◌};
ghost use Rattle.card_blocks.specs.Replies.{refused, done};

use crate::{Reply, Stepped};
use base::Refusal;
use card_record::{Card, Sent};

// A refused call that leaves this record.
pub fn refuse(card: Card, refusal: Refusal) -> Stepped
    ensures answer { result ≡ refused card refusal }
{
    Stepped {
        card,
        reply: Reply {
            outcome: Err(refusal),
            sent: Sent::Nothing,
        },
    }
}

// A call that is carried out and sends nothing.
pub fn done(card: Card) -> Stepped
    ensures answer { result ≡ done card }
{
    Stepped {
        card,
        reply: Reply {
            outcome: Ok(None),
            sent: Sent::Nothing,
        },
    }
}
