// Kinds 07 to 0A and 0F: what is shown and set with no call.
//
// Offers: `look_line`, `set_map`, `sizes_looked`.
ghost use Rattle.std.specs.Prelude.{◌≡◌, length};
ghost use Rattle.cardline_looks.specs.Lines.{line_room, roomy};
ghost use Rattle.cardline_looks.specs.Looks.{link_text, flags_text, card_text, mode_text, memory_text, look_text, poked, map_looked, sizes_looked};
ghost use Rattle.store.specs.Lent.{lent_of};
ghost use Rattle.text.specs.Pages.{Writes};
ghost use Rattle.text.specs.Writing.{Line};

use card_record::{Link, Mode};
use cardline_script::{Looking, Sizes};
use status::Errors;
use text::lines::say;
use text::page::Page;
use text::parts::part;

fn link_text(link: Link, page: &mut Page)
    ensures { Writes page.old page.new (link_text link) }
{
    let state = link.state;
    let column = states::column_of(state);
    page.number(states::number(column) as u64);
    page.hexed(&link.address.to_be_bytes());
    page.hexed(&link.length.to_be_bytes());
}

fn flags_text(locked: bool, errors: Errors, page: &mut Page)
    ensures { Writes page.old page.new (flags_text locked errors) }
{
    page.number(u64::from(locked));
    let bits = status::pending(errors);
    page.hexed(&bits.to_be_bytes());
}

fn card_line(count: u64, link: Link, locked: bool, map: &[u8], out: &mut [u8]) -> usize
    ensures { Line (line_room 44 (length map.now)) out.old out.new result (card_text count link locked map.now) }
{
    let mut page = Page { out, at: 0 };
    page.head(count, b"card");
    link_text(link, &mut page);
    flags_text(locked, link.errors, &mut page);
    page.ending(map);
    page.at
}

fn mode_line(count: u64, mode: Mode, out: &mut [u8]) -> usize
    ensures { Line roomy out.old out.new result (mode_text count mode) }
{
    let mut page = Page { out, at: 0 };
    page.head(count, b"spi");
    page.number(u64::from(mode.spi));
    page.number(u64::from(mode.checks));
    page.put(b"\n");
    page.at
}

fn memory_line(count: u64, from: u32, n: u16, memory: &[u8], out: &mut [u8]) -> usize
    ensures { Line roomy out.old out.new result (memory_text count from n memory.now) }
{
    say(count, b"mem", part(memory, from as usize, n as usize), out)
}

// The line of what is looked at or set, of a card whose own memory and map are the first bytes of
// two buffers.
pub fn look_line(
    count: u64,
    own: Sizes,
    link: Link,
    mode: Mode,
    locked: bool,
    looking: Looking,
    memory: &[u8],
    map: &[u8],
    out: &mut [u8],
) -> usize
    ensures line { Line roomy out.old out.new result (look_text count own link mode locked looking (lent_of memory.now map.now)) }
{
    match looking {
        Looking::Card => card_line(count, link, locked, part(map, 0, own.map as usize), out),
        Looking::Mode => mode_line(count, mode, out),
        Looking::Memory { from, length } => {
            memory_line(
                count,
                from,
                length,
                part(memory, 0, own.memory as usize),
                out,
            )
        }
        Looking::Lend(_) => say(count, b"lent", b"", out),
        Looking::Poke { .. } => say(count, b"poked", b"", out),
    }
}

#[tactic(auto, unfolding(crate::specs::Looks::poked))]
fn poke(own: Sizes, entry: u8, value: u8, map: &mut [u8])
    ensures { map.new ≡ poked own entry value map.old }
{
    let at = entry as usize;
    if entry < own.map && at < map.len() {
        map[at] = value;
    }
}

// The map with an entry set, if that is asked for.
pub fn set_map(own: Sizes, looking: Looking, map: &mut [u8])
    ensures map { map.new ≡ map_looked own looking map.old }
{
    if let Looking::Poke { entry, value } = looking {
        poke(own, entry, value, map);
    }
}

// What is lent from now on.
pub fn sizes_looked(looking: Looking, lent: Sizes) -> Sizes
    ensures answer { result ≡ sizes_looked looking lent }
{
    if let Looking::Lend(sizes) = looking {
        return sizes;
    }
    lent
}
