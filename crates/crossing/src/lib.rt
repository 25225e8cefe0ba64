// A card's record as plain numbers and bytes, so that it can cross to C: the kit exports no function
// that takes a reference to what holds an enum. Thirteen numbers, and the 16 bytes each of the CID,
// the CSD and the password, stand for a record (from_numbers.rt), and any do; a record has its numbers
// (to_numbers.rt). Eight of them are the link's, one the mode's, two the lock's and two the registers':
// a part that a call does not change need not be told. Commands change the link and the mode, so
// these two are told together; a damaged frame changes the error bits alone. Nothing is lost between
// numbers and record (proofs/Crossing.antt).
//
// Offers: `card_of`, `link_of`, `mode_of`, `registers_of`, `groups_of`, `locked_of`; `tell_card`,
// `tell_errors`, `tell_link`, `tell_link_and_lock`.
#![tactic(auto)]

mod from_numbers;
mod to_numbers;

pub use from_numbers::{card_of, groups_of, link_of, locked_of, mode_of, registers_of};
pub use to_numbers::{tell_card, tell_errors, tell_link, tell_link_and_lock};
