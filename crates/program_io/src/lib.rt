// What the programs share: bytes read as they come, text handed to the write call,
// and a script in hex from a file that an argument names. A read or a write that fails is said on
// standard error, in words. No contract can say what is read or written: what a script prints is
// promised in `cardline_records` and `busline_records`.
//
// Offers: `Told`; `more`, `all`; `Unwritten`, `show`; `named`; `digit`, `Hex`; `play`.
#![tactic(auto)]

mod hex;
mod shown;
mod turns;

ghost use Rattle.std.specs.Prelude.{◌≡◌, ◌≤◌, ◌<◌, min, length, IfOk, IfSome, MatchResult};
ghost use Rattle.program_io.specs.Reading.{Behind};

use hex::decode;
pub use hex::digit;
pub use shown::Hex;
use std::env::FillError;
use std::fmt::{Display, InlineText};
use std::io::Read;
use std::rt::{Env, Files};
use std::{fs, io, str};
pub use turns::play;

// Why a program goes no further is said on standard error: there is no more to say of it.
#[derive(Clone, Copy, Debug, PartialEq, Eq)]
pub struct Told;

// More bytes of a file that is told of by a name, behind the first `kept` of a buffer: so many are at
// hand now, or the input has ended. Where the buffer is full that is an end, so a buffer holds more
// than is ever kept.
pub fn more(
    rt: &impl Eprint,
    file: &mut impl Read,
    name: &[u8],
    buffer: &mut [u8],
    kept: usize,
) -> Result<Option<usize>, Told>
    ensures answer { Behind kept (length buffer.old) result }
{
    let from = kept.min(buffer.len());
    match file.read(&mut buffer[from..]) {
        Ok(0) => Ok(None),
        Ok(n) => Ok(Some(from + n)),
        Err(why) => Err(fail_by(rt, name, why)),
    }
}

// So many bytes were handed to the write call, which failed: that is said.
#[derive(Clone, Copy, Debug, PartialEq, Eq)]
pub struct Unwritten {
    pub bytes: usize,
}

// The bytes at the front of `out`, handed to the call that writes to standard output: how many.
pub fn show(rt: &(impl Print + Eprint), out: &[u8], n: usize) -> Result<usize, Unwritten>
    ensures answer { MatchResult result (λ bytes. bytes ≡ min n (length out.now)) (λ unwritten. unwritten.bytes ≡ min n (length out.now)) }
{
    let text = &out[..n.min(out.len())];
    let bytes = text.len();
    match rt.write_all(text) {
        Ok(()) => Ok(bytes),
        Err(why) => {
            fail_by(rt, b"standard output", why);
            Err(Unwritten { bytes })
        }
    }
}

// A script in hex from the file that an argument names, under a heading: how many bytes it is. One
// that can't be read, or is no hex text, is told of and none of it given. A buffer and a count, since
// a script is played in the buffer that it is read into.
pub fn named(
    rt: &(impl Env + Files + Print + Eprint),
    i: usize,
    bytes: &mut [u8],
) -> Result<usize, Told>
    ensures within { IfOk result (λ n. n ≤ length bytes.old) }
{
    let mut name = [0u8; 64];
    match rt.arg(i, &mut name) {
        Ok(n) => headed(rt, &name[..n], bytes),
        Err(FillError::NotPresent) => Err(fail(rt, b"argument", "Invalid argument")),
        Err(FillError::TooLong) => Err(fail(rt, b"argument", "File name too long")),
    }
}

fn headed(rt: &(impl Files + Print + Eprint), name: &[u8], bytes: &mut [u8]) -> Result<usize, Told>
    ensures within { IfOk result (λ n. n ≤ length bytes.old) }
{
    let _ = rt.write_all(b"== ");
    let _ = rt.write_all(name);
    let _ = rt.write_all(b"\n");
    match open(rt, name) {
        Ok(mut file) => read(rt, &mut file, name, bytes),
        Err(why) => Err(fail_by(rt, name, why)),
    }
}

// The file of a name, opened to be read. One whose name is no UTF-8 std can't name.
fn open<R: Files>(rt: &R, name: &[u8]) -> io::Result<R::File> {
    match str::from_utf8(name) {
        Ok(path) => fs::open(rt, path),
        Err(_) => Err(io::Error::from(io::ErrorKind::InvalidInput)),
    }
}

fn read(
    rt: &impl Eprint,
    file: &mut impl Read,
    name: &[u8],
    bytes: &mut [u8],
) -> Result<usize, Told>
    ensures within { IfOk result (λ n. n ≤ length bytes.old) }
{
    let mut text = [0u8; 65536];
    let n = all(rt, file, name, &mut text)?;
    match decode(&text[..n], bytes) {
        Ok(n) => Ok(n),
        Err(wrong) => Err(fail(rt, name, wrong)),
    }
}

// A whole file, at the front of a text: how many bytes. Of one that can't be read, or has no end
// within the text, none are given, and that is said: a part would be taken for the whole. A lent text
// and a count: a program takes no memory that it may not get.
pub fn all(
    rt: &impl Eprint,
    file: &mut impl Read,
    name: &[u8],
    text: &mut [u8],
) -> Result<usize, Told>
    ensures within { IfOk result (λ n. n ≤ length text.old) }
{
    let mut kept = 0;
    for _ in 0..u64::MAX {
        let Some(n) = more(rt, file, name, text, kept)? else {
            return within(rt, file, name, kept, text.len());
        };
        kept = n;
    }
    Ok(kept)
}

// The bytes of a file that has ended, or fills a text: then it may not have one more.
fn within(
    rt: &impl Eprint,
    file: &mut impl Read,
    name: &[u8],
    kept: usize,
    room: usize,
) -> Result<usize, Told>
    ensures { IfOk result (λ n. n ≤ kept) }
{
    if kept < room {
        return Ok(kept);
    }
    match more(rt, file, name, &mut [0u8; 1], 0)? {
        Some(_) => Err(fail(rt, name, "too long")),
        None => Ok(kept),
    }
}

// Why a read or a write failed, in the system's words: std puts the error's number behind them.
fn fail_by(rt: &impl Eprint, name: &[u8], why: io::Error) -> Told {
    let all = InlineText::<256>::of(why);
    let words = all.as_str();
    match words.rsplit_once(" (os error ") {
        Some((front, _)) => fail(rt, name, front),
        None => fail(rt, name, words),
    }
}

// What is wrong with a file of a name, said on standard error.
fn fail(rt: &impl Eprint, name: &[u8], why: impl Display + Drop) -> Told {
    let _ = match str::from_utf8(name) {
        Ok(name) => eprintln!(rt; "{name}: {why}"),
        Err(_) => eprintln!(rt; "{}: {why}", name.escape_ascii()),
    };
    Told
}
