// Vectors: a script of requests to the wire, read from standard input, printed with what came of
// each. An empty line, or one that begins with `#`, is printed as it is; any other is a request,
// printed with ` -> ` and the answer behind it. request.rt has the requests.
#![tactic(auto)]

mod parse;
mod request;
mod say;

use program_io::{Unwritten, all, show};
use request::answer;
use say::say;

fn main(rt: HostRuntime) {
    let mut text = [0u8; 65536];
    if let Ok(n) = all(&rt, &mut rt.stdin(), b"standard input", &mut text) {
        let _ = run(&rt, &text[..n]);
    }
}

// A script, line by line.
fn run(rt: &(impl Print + Eprint), text: &[u8]) -> Result<(), Unwritten> {
    for l in text.split_inclusive(|b| *b == b'\n') {
        line(rt, l.strip_suffix(b"\n").unwrap_or(l))?;
    }
    Ok(())
}

fn line(rt: &(impl Print + Eprint), l: &[u8]) -> Result<(), Unwritten> {
    say(rt, l);
    if !matches!(l, [] | [b'#', ..]) {
        say(rt, b" -> ");
        answer(rt, l);
    }
    show(rt, b"\n", 1)?;
    Ok(())
}
