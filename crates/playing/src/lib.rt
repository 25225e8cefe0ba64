// A script played in pieces, as `cardline` and `busline` do it: what became of the record at the
// front of what is left, and the bytes that are left over, moved to the front of the buffer that more
// is read into. specs/ has what a piece prints and leaves, whatever a record does; proofs/ that a
// script played piece by piece is the script played at once.
//
// Offers: `Then`, `Said`; `keep`; `Turn`, `Player`.
#![tactic(auto)]

mod player;

ghost use Rattle.std.specs.Prelude.{◌≡◌, ◌-◌, min, length};
ghost use Rattle.playing.specs.Playing.{kept_of};

pub use player::{Player, Turn};

// How a script goes on behind a record: with the next one; not at all; once the record, of which not
// all bytes are there yet, is whole; or once there is room for its line. The last two did nothing.
#[derive(Clone, Copy, PartialEq, Eq)]
pub enum Then {
    Goes,
    Stops,
    Waits,
    NoRoom,
}

// What a record, or a piece of a script, leaves: what is kept behind it; the bytes of the script that it
// took, and those of its text at the front of the output; how the script goes on.
#[derive(Clone, Copy)]
pub struct Said<P> {
    pub progress: P,
    pub used: usize,
    pub wrote: usize,
    pub then: Then,
}

// The bytes of a buffer from one place to another, moved to its front: how many.
pub fn keep(buffer: &mut [u8], from: usize, to: usize) -> usize
    ensures answer { result ≡ min to (length buffer.old) - from }
    ensures buffer { buffer.new ≡ kept_of from result buffer.old }
{
    let end = to.min(buffer.len());
    if end <= from {
        return 0;
    }
    buffer.copy_within(from..end, 0);
    end - from
}
