// Calls of `store` with the C interface, for the measurements of measure/ alone: nothing that a unit
// links stands on this crate. Each call promises what the call behind it promises.
//
// Offers: `measured_fill`, `measured_read`, `measured_write`, `measured_erase`.
#![tactic(auto)]

ghost use Rattle.std.specs.Prelude.{◌≡◌, false, length};
ghost use Rattle.store.specs.Erase.{erased, any_spared};
ghost use Rattle.store.specs.Memory.{contents, inside, sector_written, part_read, all_erased};
ghost use Rattle.measured.specs.Sectors.{sectors_tagged};

use tags::{Kind, Range, Tags};

// Every byte of the memory erased.
#[unsafe(no_mangle)]
pub extern "C" fn measured_fill(memory: &mut [u8])
    ensures memory { contents memory.new ≡ all_erased (contents memory.old) }
{
    store::fill_all(memory);
}

// The bytes from a place on copied over all of `out`.
#[unsafe(no_mangle)]
pub extern "C" fn measured_read(memory: &[u8], at: usize, out: &mut [u8]) -> bool
    ensures answer { result ≡ inside (contents memory.now) at (length out.old) }
    ensures output { out.new ≡ part_read (contents memory.now) at out.old }
{
    store::read_part(memory, at, out)
}

// A sector written, where the memory has it.
#[unsafe(no_mangle)]
pub extern "C" fn measured_write(memory: &mut [u8], sector: u32, bytes: &[u8; 512])
    ensures memory { contents memory.new ≡ sector_written (contents memory.old) sector bytes.now }
{
    store::write_sector(memory, sector, bytes);
}

// The sectors from the first to the last, both within, erased but for the protected ones; whether
// any was spared.
#[unsafe(no_mangle)]
pub extern "C" fn measured_erase(memory: &mut [u8], map: &[u8], first: u32, last: u32) -> bool
    ensures answer { result ≡ any_spared map.now (sectors_tagged first last) false (length (contents memory.old)) }
    ensures memory { contents memory.new ≡ erased map.now (sectors_tagged first last) false (contents memory.old) }
{
    let tags = Tags {
        range: Range::Full(Kind::Sectors, first, last),
    };
    store::erase(memory, map, tags, false)
}
