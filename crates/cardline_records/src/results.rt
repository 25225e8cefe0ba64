// What is kept from record to record.
//
// Offers: `counted`, `with_card`, `with_lent`, `goes_on`, `ends`, `left_alone`.
ghost use Rattle.std.specs.Prelude.{◌≡◌};
ghost use Rattle.cardline_records.specs.Progress.{record_counted, with_card, with_lent, gone_on, ended, untouched};

use crate::{Progress, Said};
use card_record::Card;
use cardline_script::Sizes;
use playing::Then;

// With the number of the next record.
#[tactic(auto, unfolding(crate::specs::Progress::record_counted))]
pub fn counted(progress: Progress) -> Progress
    ensures { result ≡ record_counted progress }
{
    Progress {
        count: progress.count.saturating_add(1),
        ..progress
    }
}

pub fn with_card(progress: Progress, card: Card) -> Progress
    ensures { result ≡ with_card progress card }
{
    Progress { card, ..progress }
}

pub fn with_lent(progress: Progress, lent: Sizes) -> Progress
    ensures { result ≡ with_lent progress lent }
{
    Progress { lent, ..progress }
}

// A record that is carried out.
pub fn goes_on(progress: Progress, used: usize, wrote: usize) -> Said
    ensures { result ≡ gone_on progress used wrote }
{
    Said {
        progress,
        used,
        wrote,
        then: Then::Goes,
    }
}

// A record at which the script stops.
pub fn ends(progress: Progress, wrote: usize) -> Said
    ensures { result ≡ ended progress wrote }
{
    Said {
        progress,
        used: 0,
        wrote,
        then: Then::Stops,
    }
}

// A record that is not carried out: it waits for more bytes, or for a longer output.
pub fn left_alone(progress: Progress, then: Then) -> Said
    ensures { result ≡ untouched progress then }
{
    Said {
        progress,
        used: 0,
        wrote: 0,
        then,
    }
}
