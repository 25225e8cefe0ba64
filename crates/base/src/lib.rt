// What every other crate shares: the refusals of document 01, the error of every call that may be
// refused, and three small tools. The vocabulary of the contracts is in specs/, the laws that
// proofs share in proofs/.
//
// Offers: `Refusal`, `number`; `SECTOR`, `ERASE_GROUP`, `PROTECTION_GROUP`, `READ_BLOCK`;
// `fill`, `copy`, `lay`.
#![tactic(auto)]

ghost use Rattle.std.specs.Prelude.{◌≡◌, length, replicate};
ghost use Rattle.base.specs.Output.{copied, fits, laid};
ghost use Rattle.base.specs.Refusals.{number_of};

// Document 01, "Memory of one card", in bytes: sector, erase group, protection group and physical
// read block (specs/Sizes.antt).
pub const SECTOR: u32 = 512;

pub const ERASE_GROUP: u32 = 4096;

pub const PROTECTION_GROUP: u32 = 8192;

pub const READ_BLOCK: u32 = 2048;

// Document 01, "Refusal numbers": a name for each row of the table, in its order.
#[derive(Clone, Copy, PartialEq, Eq)]
pub enum Refusal {
    FrameLength,
    FrameBits,
    FrameCrc,
    Index,
    PayloadLength,
    OutputShort,
    MemorySize,
    Map,
    RegisterLastByte,
    Ocr,
    PasswordLength,
    Lent,
    BusCards,
    BusIndex,
    NoBlock,
    BlockLength,
    BlockCrc,
    PastEnd,
    Protected,
    LockFailed,
    BlockCrosses,
}

// The number that document 01 gives a refusal: the only place where the code turns one into it.
// No `From`: docs/PROMISES.md names `number`, and the edit number_shared an arm of it.
pub fn number(r: Refusal) -> u8
    ensures answer { result ≡ number_of r }
{
    match r {
        Refusal::FrameLength => 1,
        Refusal::FrameBits => 2,
        Refusal::FrameCrc => 3,
        Refusal::Index => 4,
        Refusal::PayloadLength => 5,
        Refusal::OutputShort => 6,
        Refusal::MemorySize => 7,
        Refusal::Map => 8,
        Refusal::RegisterLastByte => 9,
        Refusal::Ocr => 10,
        Refusal::PasswordLength => 11,
        Refusal::Lent => 12,
        Refusal::BusCards => 13,
        Refusal::BusIndex => 14,
        Refusal::NoBlock => 15,
        Refusal::BlockLength => 16,
        Refusal::BlockCrc => 17,
        Refusal::PastEnd => 18,
        Refusal::Protected => 19,
        Refusal::LockFailed => 20,
        Refusal::BlockCrosses => 21,
    }
}

// Every byte made one value. (The slice's own `fill` takes 13 instructions more a call.)
pub fn fill(bytes: &mut [u8], value: u8)
    ensures bytes { bytes.new ≡ replicate (length bytes.old) value }
{
    for byte in bytes {
        *byte = value;
    }
}

// As many of the bytes as there is room for, written over others from a place on.
pub fn copy(bytes: &[u8], over: &mut [u8], at: usize)
    ensures over { over.new ≡ copied bytes.now over.old at }
{
    let from = at.min(over.len());
    let n = bytes.len().min(over.len() - from);
    over[from..from + n].copy_from_slice(&bytes[..n]);
}

// Bytes at the front of a lent output: 6.
pub fn lay(bytes: &[u8], out: &mut [u8]) -> Result<usize, Refusal>
    ensures answer { result ≡ fits bytes.now out.old }
    ensures output { out.new ≡ laid result bytes.now out.old }
{
    let n = bytes.len();
    if out.len() < n {
        return Err(Refusal::OutputShort);
    }
    out[..n].copy_from_slice(bytes);
    Ok(n)
}
