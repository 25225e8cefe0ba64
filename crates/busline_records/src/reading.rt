// What a record asks for, and the identifier in its body.
ghost use Rattle.std.specs.Prelude.{◌≡◌};
ghost use Rattle.busline_records.specs.Reading.{complete, asked_of, identifier_of};

use crate::Asked;
use base::copy;
use text::parts::part;

// What is asked for, if the script has the whole of its body.
fn complete(body: usize, script: &[u8], then: Asked) -> Asked
    ensures { result ≡ complete body script.now then }
{
    if script.len() <= body {
        Asked::More
    } else {
        then
    }
}

// The record at the front of a script.
#[tactic(auto, unfolding(crate::specs::Reading::asked_of))]
pub fn read(script: &[u8]) -> Asked
    ensures answer { result ≡ asked_of script.now }
{
    match script.first() {
        None => Asked::More,
        Some(0x01) => complete(15, script, Asked::Card),
        Some(0x02) => complete(6, script, Asked::Frame),
        Some(_) => Asked::BadKind,
    }
}

// The identifier of the record at the front of a script: the 15 bytes of its body, with the last
// byte added. Where there are fewer, zeros stand behind them.
pub fn identifier(script: &[u8]) -> [u8; 16]
    ensures answer { result ≡ identifier_of script.now }
{
    let mut body = [0; 15];
    copy(part(script, 1, 15), &mut body, 0);
    let mut cid = [0; 16];
    copy(&body, &mut cid, 0);
    cid[15] = wire::last_byte(&body);
    cid
}
