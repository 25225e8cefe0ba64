// What plays a script, turn by turn: a card or a bus.
//
// Offers: `Turn`, `Player`.
use crate::Then;

// What a turn leaves: the bytes at the front of the buffer up to a place are at hand; those of the
// text at the front of the output; how the script goes on.
#[derive(Clone, Copy)]
pub struct Turn {
    pub to: usize,
    pub wrote: usize,
    pub then: Then,
}

pub trait Player {
    // What is at hand in a buffer, up to a place, played.
    fn turn(&mut self, to: usize, buffer: &mut [u8], out: &mut [u8]) -> Turn;

    // What is said of the bytes that a script leaves over at its end: how many bytes it has.
    fn cut(&self, left: &[u8], out: &mut [u8]) -> usize;
}
