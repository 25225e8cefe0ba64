// A script played turn by turn, wherever its bytes come from.
//
// Offers: `play`.
use crate::{Told, Unwritten};
use playing::{Player, Then};
use text::parts::part;

impl From<Unwritten> for Told {
    fn from(_said: Unwritten) -> Told {
        Told
    }
}

// Turn by turn: where a record waits for bytes, `more` behind those that are kept; what is at hand,
// played; its text, for `show`. At the end of the bytes what is left over is said. A loop has to end,
// and nothing says that a script does: no run uses up so many turns.
pub fn play<M, S>(
    player: &mut impl Player,
    buffer: &mut [u8],
    out: &mut [u8],
    mut more: M,
    show: S,
) -> Result<(), Told>
where
    M: FnMut(&mut [u8], usize) -> Result<Option<usize>, Told>,
    S: Fn(&[u8], usize) -> Result<usize, Unwritten>,
    requires reads { M.IsAlwaysCallable more }
    requires writes { S.IsAlwaysCallable show }
{
    let mut to = 0;
    let mut then = Then::Waits;
    for _ in 0..u64::MAX {
        if matches!(then, Then::Waits) {
            let Some(n) = more(buffer, to)? else {
                let n = player.cut(part(buffer, 0, to), out);
                show(out, n)?;
                return Ok(());
            };
            to = n;
        }
        let turn = player.turn(to, buffer, out);
        show(out, turn.wrote)?;
        if matches!(turn.then, Then::Stops) {
            return Ok(());
        }
        to = turn.to;
        then = turn.then;
    }
    Ok(())
}
