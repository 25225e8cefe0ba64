// The password of a card with its lock flag, and the requests of CMD42 on them (document 01,
// "Reading, writing, erasing, locking"). Any record may come in: a length over 16 reads as 16.
//
// Offers: `Lock`, `no_password`, `powered`; `make`; `Operation`, `Answer`,
// `Requested`, `request`.
#![tactic(auto)]

ghost use Rattle.std.specs.Prelude.{not, ◌≡◌, ◌+◌, ◌≤◌, length, take, drop};
ghost use Rattle.lock.specs.Passwords.{longest_password, stored, same, holding, no_password, flagged, powered_of, lock_made};
ghost use Rattle.lock.specs.Requests.{asked_by, long_enough, new_of, settable, presented, allowed, request_failed, granted_if, erased_if, done_of, request_of};

use base::{Refusal, copy};

// The password is the first `length` bytes; a length of 0 means none.
// Bytes and a length, no slice: `crossing::card_of` and the C calls have them apart.
#[derive(Clone, Copy)]
pub struct Lock {
    pub password: [u8; 16],
    pub length: u8,
    pub locked: bool,
}

// What a lock request asks for.
#[derive(Clone, Copy, PartialEq, Eq)]
pub enum Operation {
    Unlock,
    Set,
    Clear,
    Lock,
    SetAndLock,
    ForcedErase,
    Unknown,
}

// What became of a request. After `Erased` the caller fills the memory and clears the map.
#[derive(Clone, Copy, PartialEq, Eq)]
pub enum Answer {
    Granted,
    Erased,
    Failed,
}

#[derive(Clone, Copy)]
pub struct Requested {
    pub lock: Lock,
    pub answer: Answer,
}

// A record without a password, unlocked.
#[tactic(auto, unfolding(crate::specs::Passwords::holding))]
pub fn no_password() -> Lock
    ensures answer { result ≡ no_password }
{
    Lock {
        password: [0; 16],
        length: 0,
        locked: false,
    }
}

// A record of a password and a flag, with zeros behind the password.
fn holding(bytes: &[u8], locked: bool) -> Lock
    requires { length bytes.now ≤ longest_password }
    ensures { result ≡ holding bytes.now locked }
{
    let mut password = [0; 16];
    copy(bytes, &mut password, 0);
    Lock {
        password,
        length: bytes.len() as u8,
        locked,
    }
}

// How many bytes the stored password has.
fn held(lock: Lock) -> usize
    ensures answer { result ≡ length (stored lock) }
    ensures bound { result ≤ longest_password }
{
    lock.length.min(16) as usize
}

// The record with another flag, as it is otherwise.
fn flagged(lock: Lock, locked: bool) -> Lock
    ensures { result ≡ flagged lock locked }
{
    Lock { locked, ..lock }
}

// Power-on: locked exactly if a password is stored.
#[tactic(auto, unfolding(crate::specs::Passwords::powered_of))]
pub fn powered(lock: Lock) -> Lock
    ensures answer { result ≡ powered_of lock }
{
    flagged(lock, 1 <= held(lock))
}

// The record of a card made with a password: 11.
#[tactic(auto, unfolding(crate::specs::Passwords::lock_made))]
pub fn make(password: &[u8]) -> Result<Lock, Refusal>
    ensures answer { result ≡ lock_made password.now }
{
    if 16 < password.len() {
        return Err(Refusal::PasswordLength);
    }
    Ok(powered(holding(password, false)))
}

// Record and payload stay two parameters below: a struct of both lengthens each clause by its fields.

// Whether the block has byte 1 and as many bytes behind it as that says.
fn long_enough(payload: &[u8]) -> bool
    ensures { result ≡ long_enough payload.now }
{
    2 <= payload.len() && 2 + payload[1] as usize <= payload.len()
}

// Whether the bytes from byte 2 on, of which there are enough, begin with the stored password. Byte
// by byte: `starts_with` takes 30 instructions more of a password set.
fn matches(lock: Lock, payload: &[u8]) -> bool
    requires { 2 + length (stored lock) ≤ length payload.now }
    ensures { result ≡ same (take (length (stored lock)) (drop 2 payload.now)) (stored lock) }
{
    let n = held(lock);
    for i in 0..n {
        if payload[2 + i] != lock.password[i] {
            return false;
        }
    }
    true
}

// Whether the block carries the stored password, all of it and no more.
#[tactic(auto, using(crate::proofs::Carried::presented_tests))]
fn presented(lock: Lock, payload: &[u8]) -> bool
    ensures { result ≡ presented lock payload.now }
{
    let n = held(lock);
    long_enough(payload) && 1 <= n && payload[1] as usize == n && matches(lock, payload)
}

// Whether the block carries the stored password and behind it a new one of 1 to 16 bytes.
#[tactic(auto, using(crate::proofs::Carried::settable_tests))]
fn settable(lock: Lock, payload: &[u8]) -> bool
    ensures { result ≡ settable lock payload.now }
{
    let n = held(lock);
    long_enough(payload)
        && n < payload[1] as usize
        && payload[1] as usize <= n + 16
        && matches(lock, payload)
}

fn failed(lock: Lock) -> Requested
    ensures { result ≡ request_failed lock }
{
    Requested {
        lock,
        answer: Answer::Failed,
    }
}

// What clear, lock and unlock share: the record that follows, for the stored password.
fn for_password(lock: Lock, payload: &[u8], next: Lock) -> Requested
    ensures { result ≡ granted_if (presented lock payload.now) lock next }
{
    if presented(lock, payload) {
        Requested {
            lock: next,
            answer: Answer::Granted,
        }
    } else {
        failed(lock)
    }
}

// What set, and set and lock, share: the new password is taken with a flag.
#[tactic(auto, using(crate::proofs::Carried::set_laws))]
fn set_password(lock: Lock, payload: &[u8], locked: bool) -> Requested
    ensures { result ≡ granted_if (settable lock payload.now) lock (holding (new_of lock payload.now) locked) }
{
    if !settable(lock, payload) {
        return failed(lock);
    }
    let from = 2 + held(lock);
    let to = 2 + payload[1] as usize;
    Requested {
        lock: holding(&payload[from..to], locked),
        answer: Answer::Granted,
    }
}

fn forced_erase(lock: Lock, protected: bool) -> Requested
    ensures { result ≡ erased_if (not protected) lock }
{
    if protected {
        return failed(lock);
    }
    Requested {
        lock: no_password(),
        answer: Answer::Erased,
    }
}

// The request that byte 0 names.
impl From<u8> for Operation {
    ghost from_gives = { λ byte asked. asked ≡ asked_by byte };

    fn from(byte: u8) -> Operation {
        match byte {
            0 => Operation::Unlock,
            1 => Operation::Set,
            2 => Operation::Clear,
            4 => Operation::Lock,
            5 => Operation::SetAndLock,
            8 => Operation::ForcedErase,
            _ => Operation::Unknown,
        }
    }
}

// Unlock and forced erase are for a locked card, all others for an unlocked one.
fn allowed(byte: u8, locked: bool) -> bool
    ensures { result ≡ allowed byte locked }
{
    match byte {
        0 | 8 => locked,
        _ => !locked,
    }
}

fn done(asked: Operation, lock: Lock, payload: &[u8], protected: bool) -> Requested
    ensures { result ≡ done_of asked lock payload.now protected }
{
    match asked {
        Operation::Unlock => for_password(lock, payload, flagged(lock, false)),
        Operation::Set => set_password(lock, payload, lock.locked),
        Operation::Clear => for_password(lock, payload, no_password()),
        Operation::Lock => for_password(lock, payload, flagged(lock, true)),
        Operation::SetAndLock => set_password(lock, payload, true),
        Operation::ForcedErase => forced_erase(lock, protected),
        Operation::Unknown => failed(lock),
    }
}

// A lock request judged and carried out on the record. `protected` says that CSD bit 13 or 12 is
// set.
#[tactic(auto, unfolding(crate::specs::Requests::request_of))]
pub fn request(lock: Lock, payload: &[u8], protected: bool) -> Requested
    ensures answer { result ≡ request_of lock payload.now protected }
{
    match payload.first() {
        Some(&byte) if allowed(byte, lock.locked) => {
            done(Operation::from(byte), lock, payload, protected)
        }
        _ => failed(lock),
    }
}
