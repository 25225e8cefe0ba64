// Corpus: the scripts of data/, under a heading each: those of bus/ are played as busline plays them,
// the others, of card/, as cardline does. Some are written by hand, the others are random; stdout is
// what the model wrote for all of them, and `tests/corpus` makes it again.
#![tactic(auto)]

use busline_player::BusPlayer;
use cardline_player::CardPlayer;
use playing::Player;
use program_io::show;
use std::env::FillError;
use std::rt::{Env, Files};

fn main(rt: HostRuntime) {
    for i in 1..usize::MAX {
        if !is_given(&rt, i) {
            return;
        }
        script(&rt, i);
    }
}

// Whether there is an argument: the list of them ends before the first that there is not. One at a
// time, since std's list of them takes memory that a program may not get.
fn is_given(rt: &impl Env, i: usize) -> bool {
    !matches!(rt.arg(i, &mut [0u8; 64]), Err(FillError::NotPresent))
}

// The script that an argument names. `program_io` reads 65,536 characters, so no script is longer.
fn script(rt: &(impl Env + Files + Print + Eprint), i: usize) {
    let mut bytes = [0u8; 32768];
    let n = program_io::named(rt, i, &mut bytes).unwrap_or(0);
    if for_bus(rt, i) {
        play_bus(rt, &mut bytes, n);
    } else {
        play_card(rt, &mut bytes, n);
    }
}

// None of these is copied into its caller: it would clear what a bus and a card need for every script,
// and an output beside a bus twice.
#[inline(never)]
fn play_bus(rt: &(impl Print + Eprint), bytes: &mut [u8], n: usize) {
    play_on_bus(rt, bytes, n, &mut [0u8; 65536]);
}

#[inline(never)]
fn play_on_bus(rt: &(impl Print + Eprint), bytes: &mut [u8], n: usize, out: &mut [u8]) {
    play(rt, &mut BusPlayer::fresh(), bytes, n, out);
}

#[inline(never)]
fn play_card(rt: &(impl Print + Eprint), bytes: &mut [u8], n: usize) {
    let mut memory = [0u8; 528384];
    let mut map = [0u8; 256];
    let mut player = CardPlayer::fresh(&mut memory, &mut map);
    play(rt, &mut player, bytes, n, &mut [0u8; 131136]);
}

// The first bytes of a buffer: no more come behind them. A text that could not be written is told of,
// and the script goes on.
fn play(
    rt: &(impl Print + Eprint),
    player: &mut impl Player,
    buffer: &mut [u8],
    script: usize,
    out: &mut [u8],
) {
    let mut whole = Some(script);
    let _ = program_io::play(
        player,
        buffer,
        out,
        |_, _| Ok(whole.take()),
        |out, n| Ok(show(rt, out, n).unwrap_or_else(|unwritten| unwritten.bytes)),
    );
}

// Whether an argument names a script for a bus: one of the folder that begins with `b`.
fn for_bus(rt: &impl Env, i: usize) -> bool {
    let mut name = [0u8; 64];
    let _ = rt.arg(i, &mut name);
    name[0] == b'b'
}
