// Busline: a bus of cards, driven by a script of records on standard input (document 01, "The shared
// line"). It is played as it is read, so a script may have any length. `busline_records` says what a
// record does and what is printed of it, `busline_player` what is handed to the write call in a turn.
#![tactic(auto)]

use busline_player::BusPlayer;
use program_io::{more, play, show};
use std::io::Read;

// The buffer holds more than the longest record.
fn main(rt: HostRuntime) {
    let mut buffer = [0u8; 4096];
    let mut out = [0u8; 65536];
    run(&rt, &mut rt.stdin(), &mut buffer, &mut out);
}

// Never copied into `main`, where the compiler would clear the buffers twice beside a bus.
#[inline(never)]
fn run(rt: &(impl Print + Eprint), input: &mut impl Read, buffer: &mut [u8], out: &mut [u8]) {
    let _ = play(
        &mut BusPlayer::fresh(),
        buffer,
        out,
        |buffer, kept| more(rt, input, b"standard input", buffer, kept),
        |out, n| show(rt, out, n),
    );
}
