// Bytes as programs print them.
//
// Offers: `Hex`.
ghost use Rattle.std.specs.Prelude.{Some};
ghost use Rattle.program_io.specs.HexText.{shown_hex};

use std::{fmt, str};

// So many bytes are written at once: a format of each costs four times as much.
const ROW: usize = 40;

// Two upper-case hex digits for each byte; `-` for none.
#[derive(Clone, Copy)]
pub struct Hex<'a>(pub &'a [u8]);

impl fmt::Display for Hex<'_> {
    ghost output = { λ hex. Some (shown_hex hex.0.now) };

    fn fmt<W: fmt::Write>(&self, f: &mut fmt::Formatter<W>) -> fmt::Result {
        if self.0.is_empty() {
            return write!(f, "-");
        }
        let mut text = [0u8; 2 * ROW];
        for bytes in self.0.chunks(ROW) {
            let Ok(n) = text::hex(bytes, &mut text) else {
                return Err(fmt::Error);
            };
            let Ok(digits) = str::from_utf8(&text[..n]) else {
                return Err(fmt::Error);
            };
            f.write_str(digits)?;
        }
        Ok(())
    }
}
