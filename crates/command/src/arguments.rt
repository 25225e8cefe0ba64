// Check 6: the errors in a command's argument.
ghost use Rattle.std.specs.Prelude.{◌≡◌};
ghost use Rattle.command.specs.Arguments.{length_fault, read_fault, write_fault, group_fault, address_fault, argument_fault};

use base::SECTOR;
use status::ErrorBit;
use wire::Command;

// The sizes of document 01, in the types that they are used in here: a sector as a block's length,
// and as a part of the memory.
const LONGEST_BLOCK: u32 = wire::LONGEST_BLOCK as u32;

const SECTOR_LENGTH: u16 = SECTOR as u16;

const SECTOR_SPAN: u64 = SECTOR as u64;

// CMD16.
fn length_fault(argument: u32) -> Option<ErrorBit>
    ensures { result ≡ length_fault argument }
{
    if argument < 1 || LONGEST_BLOCK < argument {
        return Some(ErrorBit::BlockLenError);
    }
    None
}

// CMD17, 18.
fn read_fault(argument: u32, length: u16, size: u32) -> Option<ErrorBit>
    ensures { result ≡ read_fault argument length size }
{
    let end = u64::from(argument) + u64::from(length);
    if u64::from(size) < end {
        return Some(ErrorBit::OutOfRange);
    }
    if card_record::crosses(argument, length) {
        return Some(ErrorBit::AddressError);
    }
    None
}

// CMD24, 25.
fn write_fault(argument: u32, length: u16, size: u32) -> Option<ErrorBit>
    ensures { result ≡ write_fault argument length size }
{
    if length != SECTOR_LENGTH {
        return Some(ErrorBit::BlockLenError);
    }
    let end = u64::from(argument) + SECTOR_SPAN;
    if u64::from(size) < end {
        return Some(ErrorBit::OutOfRange);
    }
    if argument % SECTOR != 0 {
        return Some(ErrorBit::AddressError);
    }
    None
}

// CMD28, 29, 30.
fn group_fault(argument: u32, size: u32) -> Option<ErrorBit>
    ensures { result ≡ group_fault argument size }
{
    if size <= argument {
        return Some(ErrorBit::OutOfRange);
    }
    None
}

// CMD3.
fn address_fault(argument: u32) -> Option<ErrorBit>
    ensures { result ≡ address_fault argument }
{
    if argument / 65536 < 1 {
        return Some(ErrorBit::OutOfRange);
    }
    None
}

// For all commands but the erase commands.
#[tactic(auto, unfolding(crate::specs::Arguments::argument_fault))]
pub fn argument_fault(command: Command, length: u16, size: u32) -> Option<ErrorBit>
    ensures answer { result ≡ argument_fault command.index command.argument length size }
{
    let argument = command.argument;
    match command.index {
        3 => address_fault(argument),
        16 => length_fault(argument),
        17 | 18 => read_fault(argument, length, size),
        24 | 25 => write_fault(argument, length, size),
        28 | 29 | 30 => group_fault(argument, size),
        _ => None,
    }
}
