// The lent memory of a card and its protection map (document 01, "Memory of one card"): all access
// to them goes through these calls. Sectors and protection groups go by their numbers; what does
// not lie in the lent bytes is left alone, so no call has a `requires`.
//
// Offers: `PROTECTION_GROUP`; `size_allowed`, `map_right`; `lent_check`; `read_part`,
// `write_sector`, `erase`, `fill_all`; `protected`, `protect`, `protection_bits`, `clear_map`.
#![tactic(auto)]

ghost use Rattle.std.specs.Prelude.{◌≡◌, ◌||◌, ◌+◌, ◌%◌, ◌<◌, ◌≤◌, length};
ghost use Rattle.base.specs.Choice.{pick};
ghost use Rattle.base.specs.Sizes.{sector_size};
ghost use Rattle.store.specs.Erase.{erased_sector, Spans, spared, sector_erased, erased, any_spared};
ghost use Rattle.store.specs.Lent.{seen_of, lending_of};
ghost use Rattle.store.specs.Map.{entries_right, map_right, protected_in, group_set, bit_of, protection_bits, map_cleared};
ghost use Rattle.store.specs.Memory.{contents, size_allowed, inside, sector_written, part_read, all_erased};

use base::{Refusal, fill};
use std::ops;
use tags::{Kind, Range, Tags};

// The sizes of document 01, as memory is counted.
const SECTOR: usize = base::SECTOR as usize;

pub const PROTECTION_GROUP: usize = base::PROTECTION_GROUP as usize;

// Whether a memory may have this size.
pub fn size_allowed(bytes: usize) -> bool
    ensures answer { result ≡ size_allowed bytes }
{
    if bytes < PROTECTION_GROUP {
        return false;
    }
    if 33554432 < bytes {
        return false;
    }
    bytes % PROTECTION_GROUP == 0
}

// Whether each entry is 0 or 1. Every entry is looked at, so that the loop has no second way out
// and many go at once.
#[tactic(auto, unfolding(crate::specs::Map::entries_right))]
fn entries_right(map: &[u8]) -> bool
    ensures { result ≡ entries_right map.now (length map.now) }
{
    let mut right = true;
    for entry in map {
        if 1 < *entry {
            right = false;
        }
    }
    right
}

// Whether a map is one of so many groups.
pub fn map_right(map: &[u8], groups: usize) -> bool
    ensures answer { result ≡ map_right map.now groups }
{
    if map.len() != groups {
        return false;
    }
    entries_right(map)
}

// Whether a memory of this size and a map are those of a card of so many groups: 12.
pub fn lent_check(memory: usize, map: &[u8], groups: usize) -> Result<(), Refusal>
    ensures answer { result ≡ lending_of (seen_of memory map.now) groups }
{
    if memory % PROTECTION_GROUP != 0 {
        return Err(Refusal::Lent);
    }
    if memory / PROTECTION_GROUP != groups {
        return Err(Refusal::Lent);
    }
    if !map_right(map, groups) {
        return Err(Refusal::Lent);
    }
    Ok(())
}

// Whether a sector is protected: the whole card is, or the map says so of the sector's group.
pub fn protected(map: &[u8], sector: u32, whole: bool) -> bool
    ensures answer { result ≡ protected_in map.now whole sector }
{
    if whole {
        return true;
    }
    let group = (sector / 16) as usize;
    if map.len() <= group {
        return true;
    }
    map[group] != 0
}

// Sets or clears the protection of a group.
pub fn protect(map: &mut [u8], group: u32, on: bool)
    ensures map { map.new ≡ group_set map.old group on }
{
    let at = group as usize;
    if at < map.len() {
        map[at] = u8::from(on);
    }
}

// A group's bit: 0 where the map does not have the group.
fn bit(map: &[u8], group: usize) -> u32
    ensures { result ≡ bit_of map.now group }
{
    if map.len() <= group {
        return 0;
    }
    u32::from(map[group] != 0)
}

// The bits of 32 groups, the addressed one lowest.
#[tactic(auto, unfolding(crate::specs::Map::bits_from))]
pub fn protection_bits(map: &[u8], group: u32) -> u32
    ensures answer { result ≡ protection_bits map.now group }
{
    let first = group as usize;
    let mut bits: u32 = 0;
    for i in (0..32).rev() {
        bits = bits * 2 + bit(map, first + i);
    }
    bits
}

// Every byte of the memory erased, protected or not.
pub fn fill_all(memory: &mut [u8])
    ensures memory { contents memory.new ≡ all_erased (contents memory.old) }
{
    fill(memory, 0xFF);
}

// No group protected any more.
pub fn clear_map(map: &mut [u8])
    ensures map { map.new ≡ map_cleared map.old }
{
    fill(map, 0);
}

// Bytes copied over as many others, one by one: of the slice's own copy a library for C would ask
// its program for `memmove`, as that of `measured` does not.
fn copy_bytes(bytes: &[u8], over: &mut [u8])
    requires { length bytes.now ≡ length over.old }
    ensures { over.new ≡ bytes.now }
{
    let n = bytes.len().min(over.len());
    for i in 0..n {
        over[i] = bytes[i];
    }
}

// A sector written with the first of these bytes, where there are enough and the memory has it.
#[tactic(auto, unfolding(crate::specs::Memory::sector_written))]
pub fn write_sector(memory: &mut [u8], sector: u32, bytes: &[u8])
    ensures memory { contents memory.new ≡ sector_written (contents memory.old) sector bytes.now }
{
    if bytes.len() < SECTOR {
        return;
    }
    let number = sector as usize;
    if number < memory.len() / SECTOR {
        let from = number * SECTOR;
        copy_bytes(&bytes[..SECTOR], &mut memory[from..from + SECTOR]);
    }
}

// The bytes from a place on copied over all of `out`; false, and nothing is written, where they do
// not all lie in the memory.
#[tactic(auto, unfolding(crate::specs::Memory::part_read))]
pub fn read_part(memory: &[u8], at: usize, out: &mut [u8]) -> bool
    ensures answer { result ≡ inside (contents memory.now) at (length out.old) }
    ensures output { out.new ≡ part_read (contents memory.now) at out.old }
{
    let n = out.len();
    if memory.len() < n {
        return false;
    }
    if memory.len() - n < at {
        return false;
    }
    copy_bytes(&memory[at..at + n], out);
    true
}

// Sectors outside which nothing is tagged.
fn reach(tags: Tags) -> ops::Range<usize>
    ensures { Spans tags result.start result.end }
{
    let range = tags.range;
    match range {
        Range::Nothing => 0..0,
        Range::Start(_, _) => 0..0,
        Range::Full(kind, first, last) => match kind {
            Kind::Sectors => first as usize..last as usize + 1,
            Kind::Groups => first as usize * 8..last as usize * 8 + 8,
        },
    }
}

// One sector: whether it is tagged, and then whether it is protected, asked of this sector alone.
// The answer is whether it was spared.
#[tactic(auto, unfolding(crate::specs::Erase::sector_erased))]
fn erase_sector(
    memory: &mut [u8],
    map: &[u8],
    tags: Tags,
    whole: bool,
    sector: u32,
    blank: &[u8; 512],
) -> bool
    requires { blank.now ≡ erased_sector }
    ensures answer { result ≡ spared map.now tags whole sector }
    ensures memory { memory.new ≡ sector_erased map.now tags whole sector memory.old }
{
    let is_tagged = tags::tagged(tags, sector);
    if is_tagged {
        let is_protected = protected(map, sector, whole);
        if is_protected {
            return true;
        }
        write_sector(memory, sector, blank);
    }
    false
}

// Every tagged sector outside protection erased. The answer is whether any was spared. Only the
// sectors that the tags reach are looked at. Never copied into a caller: where the compiler lays the
// sector of FF on the stack, a frame of any command would hold it.
#[inline(never)]
#[tactic(auto, unfolding(crate::specs::Erase::erased_sector))]
pub fn erase(memory: &mut [u8], map: &[u8], tags: Tags, whole: bool) -> bool
    ensures answer { result ≡ any_spared map.now tags whole (length (contents memory.old)) }
    ensures memory { contents memory.new ≡ erased map.now tags whole (contents memory.old) }
{
    let blank = [0xFFu8; 512];
    let sectors = (memory.len() / SECTOR).min(4294967296);
    let span = reach(tags);
    let end = span.end.min(sectors);
    let first = span.start.min(end);
    let mut spared = false;
    for sector in first..end {
        spared |= erase_sector(memory, map, tags, whole, sector as u32, &blank);
    }
    spared
}
