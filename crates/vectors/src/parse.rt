// The numbers and bytes that the words of a script stand for.
//
// Offers: `ROOM`, `Bytes`; `number_of`, `read`, `word_of`.
use arrayvec::ArrayVec;
use program_io::digit;
use std::str;

// The bytes of a word: one that stands for more is refused.
pub const ROOM: usize = 4096;

pub type Bytes = ArrayVec<u8, ROOM>;

// The number of a word of decimal digits: no request has one above 9999.
pub fn number_of(word: &[u8]) -> Option<u16> {
    if !word.iter().all(|b| b.is_ascii_digit()) {
        return None;
    }
    let n = str::from_utf8(word).ok()?.parse::<u16>().ok()?;
    if n < 10_000 { Some(n) } else { None }
}

// The byte of two hex digits.
fn pair(digits: &[u8]) -> Option<u8> {
    let [high, low] = digits else {
        return None;
    };
    Some(digit(*high)? * 16 + digit(*low)?)
}

// `0102`, pairs of hex digits, or `FF*512`, a byte a number of times, behind the bytes before it.
fn item(text: &[u8], bytes: &mut Bytes) -> Option<()> {
    if let Some(star) = text.iter().position(|b| *b == b'*') {
        let times = number_of(&text[star + 1..])?;
        return repeat(pair(&text[..star])?, times, bytes);
    }
    if text.is_empty() {
        return None;
    }
    for digits in text.chunks(2) {
        bytes.try_push(pair(digits)?).ok()?;
    }
    Some(())
}

// A byte a number of times, behind the bytes before it: many at once, since a push of each takes seven
// instructions.
fn repeat(b: u8, times: u16, bytes: &mut Bytes) -> Option<()> {
    let run = [b; 64];
    for at in (0..times).step_by(64) {
        let n = (times - at).min(64) as usize;
        bytes.try_extend_from_slice(&run[..n]).ok()?;
    }
    Some(())
}

// The bytes that a word stands for, behind those before it: `-`, none, or items joined by `+`. Bytes
// that do not fit are as wrong as a word that stands for none.
pub fn read(word: &[u8], bytes: &mut Bytes) -> Option<()> {
    if word == b"-".as_slice() {
        return Some(());
    }
    for text in word.split(|b| *b == b'+') {
        item(text, bytes)?;
    }
    Some(())
}

// The number of a word of eight hex digits.
pub fn word_of(word: &[u8]) -> Option<u32> {
    if word.len() != 8 || !word.iter().all(|b| b.is_ascii_hexdigit()) {
        return None;
    }
    u32::from_str_radix(str::from_utf8(word).ok()?, 16).ok()
}
