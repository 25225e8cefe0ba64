// The erase tags (document 01, "Reading, writing, erasing, locking"): a start and an end, of
// sectors or of erase groups, by their numbers; what CMD32, 33, 35 and 36 do with them, and what
// CMD38 takes. No call has a `requires`: tags that no command made are answered too.
//
// Offers: `Kind`, `Range`, `Tags`, `tagged`; `no_tags`, `any`, `complete`; `Tagging`, `failed`,
// `tag_start`, `tag_end`.
#![tactic(auto)]

ghost use Rattle.std.specs.Prelude.{◌≡◌};
ghost use Rattle.tags.specs.Tagging.{tags_of, no_tags, any_of, is_complete, place_in, tag_failed, has_start, first_of, one_group, start_tagged, end_tagged};
ghost use Rattle.tags.specs.Tags.{within, tagged_of};

use base::{ERASE_GROUP, SECTOR};
use status::ErrorBit;

#[derive(Clone, Copy, PartialEq, Eq)]
pub enum Kind {
    Sectors,
    Groups,
}

// What is tagged: nothing, a start alone, or a start and an end, both within.
#[derive(Clone, Copy)]
pub enum Range {
    Nothing,
    Start(Kind, u32),
    Full(Kind, u32, u32),
}

#[derive(Clone, Copy)]
pub struct Tags {
    pub range: Range,
}

// What a tag command leaves: the tags, and the error bit that it sets, if any.
#[derive(Clone, Copy)]
pub struct Tagging {
    pub tags: Tags,
    pub error: Option<ErrorBit>,
}

fn within(n: u32, first: u32, last: u32) -> bool
    ensures { result ≡ within n first last }
{
    first <= n && n <= last
}

// Whether an erase would take a sector, protection apart.
pub fn tagged(tags: Tags, sector: u32) -> bool
    ensures answer { result ≡ tagged_of tags sector }
{
    let range = tags.range;
    match range {
        Range::Nothing | Range::Start(_, _) => false,
        Range::Full(kind, first, last) => match kind {
            Kind::Sectors => within(sector, first, last),
            Kind::Groups => within(sector / 8, first, last),
        },
    }
}

// Tags anew, whatever they were before.
fn new_tags(range: Range) -> Tags
    ensures { result ≡ tags_of range }
{
    Tags { range }
}

// What every drop of the tags leaves.
pub fn no_tags() -> Tags
    ensures answer { result ≡ no_tags }
{
    new_tags(Range::Nothing)
}

// Whether there are tags to drop: a start alone is one.
pub fn any(tags: Tags) -> bool
    ensures answer { result ≡ any_of tags }
{
    !matches!(tags.range, Range::Nothing)
}

// Whether a start and an end are tagged, as CMD38 needs.
pub fn complete(tags: Tags) -> bool
    ensures answer { result ≡ is_complete tags }
{
    matches!(tags.range, Range::Full(_, _, _))
}

// The number of the sector or erase group that an address lies in.
fn place_in(kind: Kind, address: u32) -> u32
    ensures { result ≡ place_in kind address }
{
    match kind {
        Kind::Sectors => address / SECTOR,
        Kind::Groups => address / ERASE_GROUP,
    }
}

// An error in a tag command drops the tags.
pub fn failed(bit: ErrorBit) -> Tagging
    ensures answer { result ≡ tag_failed bit }
{
    Tagging {
        tags: no_tags(),
        error: Some(bit),
    }
}

// CMD32, 35.
#[tactic(auto, unfolding(crate::specs::Tagging::start_tagged))]
pub fn tag_start(kind: Kind, address: u32, size: u32) -> Tagging
    ensures answer { result ≡ start_tagged kind address size }
{
    if size <= address {
        return failed(ErrorBit::OutOfRange);
    }
    let first = place_in(kind, address);
    Tagging {
        tags: new_tags(Range::Start(kind, first)),
        error: None,
    }
}

// Two questions in place of one Option: the edit start_of_the_other_kind and `first_of` name them.
fn has_start(tags: Tags, kind: Kind) -> bool
    ensures { result ≡ has_start kind tags.range }
{
    let range = tags.range;
    match range {
        Range::Nothing => false,
        Range::Start(of, _) => kind == of,
        Range::Full(of, _, _) => kind == of,
    }
}

fn first_of(tags: Tags) -> u32
    ensures { result ≡ first_of tags.range }
{
    let range = tags.range;
    match range {
        Range::Nothing => 0,
        Range::Start(_, first) => first,
        Range::Full(_, first, _) => first,
    }
}

// Whether an end lies where its start allows: sectors are tagged in one erase group.
fn in_one_group(kind: Kind, first: u32, last: u32) -> bool
    ensures { result ≡ one_group kind first last }
{
    match kind {
        Kind::Sectors => first / 8 == last / 8,
        Kind::Groups => true,
    }
}

// CMD33, 36.
#[tactic(auto, unfolding(crate::specs::Tagging::end_tagged))]
pub fn tag_end(tags: Tags, kind: Kind, address: u32, size: u32) -> Tagging
    ensures answer { result ≡ end_tagged tags kind address size }
{
    if size <= address {
        return failed(ErrorBit::OutOfRange);
    }
    if !has_start(tags, kind) {
        return failed(ErrorBit::EraseSeqError);
    }
    let first = first_of(tags);
    let last = place_in(kind, address);
    if last < first {
        return failed(ErrorBit::EraseParam);
    }
    if !in_one_group(kind, first, last) {
        return failed(ErrorBit::EraseParam);
    }
    Tagging {
        tags: new_tags(Range::Full(kind, first, last)),
        error: None,
    }
}
