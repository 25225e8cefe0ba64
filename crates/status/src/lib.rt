// The status that a card shows in R1 (document 01, "How a card takes a frame"): the error bits by
// name, those that are pending, and the 32-bit word. No call has a `requires`: of any 32 bits only
// the named error bits are ever shown.
//
// Offers: `ErrorBit`; `Errors`, `none`, `set`, `clear_command_bits`, `pending`; `word`.
#![tactic(auto)]

ghost use Rattle.std.specs.Prelude.{◌≡◌};
ghost use Rattle.status.specs.Status.{no_errors, with_bit, command_bits_cleared, shown, buffer_empty, word_of};

use states::Column;

// The error bits that document 01 uses, by the names of source document 001, each with its place in
// the status.
#[derive(Clone, Copy, PartialEq, Eq)]
pub enum ErrorBit {
    OutOfRange = 31,
    AddressError = 30,
    BlockLenError = 29,
    EraseSeqError = 28,
    EraseParam = 27,
    WpViolation = 26,
    LockUnlockFailed = 24,
    ComCrcError = 23,
    IllegalCommand = 22,
    WpEraseSkip = 15,
    EraseReset = 13,
}

// The error bits that wait to be reported, each in its place of the status.
#[derive(Clone, Copy)]
pub struct Errors {
    pub bits: u32,
}

// Every error bit: 31 to 26, 24 to 22, 15 and 13.
const ERROR_BITS: u32 = 0xFDC0_A000;

// Every bit of 32 but 23 and 22.
const ALL_BUT_COMMAND_BITS: u32 = 0xFF3F_FFFF;

// No error bit: after power-on and CMD0, and after each R1.
pub fn none() -> Errors
    ensures answer { result ≡ no_errors }
{
    Errors { bits: 0 }
}

// One error bit set, and all else as it was.
pub fn set(errors: Errors, bit: ErrorBit) -> Errors
    ensures answer { result ≡ with_bit errors bit }
{
    Errors {
        bits: errors.bits | 1 << bit as u32,
    }
}

// What a taken command that answers no R1 leaves pending. A mask is all that it shares with SPI's.
pub fn clear_command_bits(errors: Errors) -> Errors
    ensures answer { result ≡ command_bits_cleared errors }
{
    Errors {
        bits: errors.bits & ALL_BUT_COMMAND_BITS,
    }
}

// The error bits in their places, as R1 reports them.
pub fn pending(errors: Errors) -> u32
    ensures answer { result ≡ shown errors }
{
    errors.bits & ERROR_BITS
}

// Bit 8, BUFFER_EMPTY in source document 001.
fn buffer_empty(on: Column) -> bool
    ensures { result ≡ buffer_empty on }
{
    !matches!(on, Column::Prg | Column::Dis)
}

// The status of a card that was in the state `on` when it received the command.
#[tactic(auto, unfolding(crate::specs::Status::word_of))]
pub fn word(errors: Errors, locked: bool, on: Column) -> u32
    ensures answer { result ≡ word_of errors locked on }
{
    let state = states::number(on) as u32;
    let low = state * 0x0200 + u32::from(buffer_empty(on)) * 0x0100;
    pending(errors) + u32::from(locked) * 0x0200_0000 + low
}
