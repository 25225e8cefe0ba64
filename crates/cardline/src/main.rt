// Cardline: drives one card through every call of its own, by a script of records on standard input.
// It is played as it is read, so a script may have any length. `cardline_records` says what a record
// does and what is printed of it, `cardline_player` what is handed to the write call in a turn.
#![tactic(auto)]

use cardline_player::CardPlayer;
use program_io::{more, play, show};

// From buffers of zeros: more than the longest record, the largest memory and map that a record lends,
// and the longest line. Player and buffers are all that differs from busline.
fn main(rt: HostRuntime) {
    let mut buffer = [0u8; 8192];
    let mut memory = [0u8; 528384];
    let mut map = [0u8; 256];
    let mut out = [0u8; 131136];
    let mut input = rt.stdin();
    let _ = play(
        &mut CardPlayer::fresh(&mut memory, &mut map),
        &mut buffer,
        &mut out,
        |buffer, kept| more(&rt, &mut input, b"standard input", buffer, kept),
        |out, n| show(&rt, out, n),
    );
}
