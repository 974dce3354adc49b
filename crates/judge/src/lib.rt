// Whether one thing in a map is as document 01 wants it: setup and info, a live slot of 6 to 8 with its object, a symbol entry with its record; and the
// kinds of chain.
#![tactic(auto)]

ghost use Rattle.std.specs.Prelude.{◌≡◌, true, cond, ◌&&◌, ℕ, ◌+◌, ◌*◌, ◌≤◌, ◌<◌};
ghost use Rattle.numbers.specs.Bytes.{u32_at};
ghost use Rattle.numbers.specs.Below.{first};
ghost use Rattle.records.specs.Sizes.{index_block_size, map_limit, block_cells};
ghost use Rattle.slots.specs.Slots.{slot_of, len_good, bytes_in, bytes_in_range};
ghost use Rattle.chain.specs.Cells.{cell_in};
ghost use Rattle.chain.specs.Tables.{ends_meet};
ghost use Rattle.judge.specs.Rules.{family_for, family_in};
ghost use Rattle.judge.specs.Kinds.{kept_off, index_kind, symbol_kind};
ghost use Rattle.judge.specs.Judging.{part_good, header_fits, object_good, slot_good, bad_slot, symbol_good, bad_entry};

mod layout;

use chain::{BlockSizes, IndexedMap, Kind};
pub use layout::{Layout, Narrow};
use numbers::{at_most, u16_at};
use records::{Header, Part, is_wide, size_good};
use slots::{IndexBlock, ObjectHeader, Slot, bytes_in, bytes_in_range, type_good};
pub use wide::Wide;
use wide::WideBlock;

// Setup or info: absent, or behind the header and inside the map.
#[tactic(auto, unfolding(crate::specs::Judging::part_good, numbers::specs::Ranges::within))]
pub fn part_good(used: usize, p: Part) -> bool
    requires { used ≤ map_limit }
    ensures { result ≡ part_good used p }
{
    let at = p.at as usize;
    p.size == 0 || Header::SIZE <= at && at + p.size as usize <= used
}

// Whether an object's header fits its slot, whose object has so many bytes. The last test also settles that a Len in 6 and 7 is one of whole pairs.
#[tactic(auto, using(crate::proofs::Judging::pairs_by_bytes), unfolding(crate::specs::Judging::header_fits))]
fn header_fits(h: ObjectHeader, t: Slot, bytes: usize) -> bool
    ensures { (version : ℕ) → bytes_in_range bytes ≡ true → bytes ≡ bytes_in version t.len
        → result ≡ (len_good version t.len && header_fits h version t) }
{
    let pairs = h.items as usize + h.texts as usize;
    h.sym == t.sym && type_good(h.kind) && ObjectHeader::SIZE + ObjectHeader::PAIR * pairs == bytes
}

// Whether a slot's Len is allowed and its object is good. The part of the map that starts at its position is handed on.
#[tactic(auto, using(crate::proofs::Judging::range_laws), unfolding(crate::specs::Judging::object_good, numbers::specs::Ranges::within))]
fn object_good(map: &IndexedMap<Narrow>, version: u16, t: Slot) -> bool
    requires { t.len ≡ 0 → ⊥ }
    ensures { result
        ≡ (len_good version t.len && object_good (ends_meet index_block_size map.now.index.now) map.now.m.now map.now.used version t) }
{
    let at = t.position as usize;
    let bytes = bytes_in(version, t.len);
    Header::SIZE <= at
        && bytes_in_range(bytes)
        && at + bytes <= map.used
        && !map.meets(at, bytes)
        && header_fits(ObjectHeader::of(&map.m[at..]), t, bytes)
}

// Whether a slot that is not free would be good as a live one. The two comparisons stand apart for the sake of time (DECISIONS, C9).
#[tactic(auto, unfolding(crate::specs::Judging::slot_good))]
pub fn slot_good(map: &IndexedMap<Narrow>, version: u16, t: Slot) -> bool
    requires { t.len ≡ 0 → ⊥ }
    ensures { result ≡ slot_good (ends_meet index_block_size map.now.index.now) map.now.m.now map.now.used version t }
{
    at_most(t.left, t.right) && object_good(map, version, t) && at_most(t.bottom, t.top)
}

// Whether a slot that is not free is live and not good.
#[tactic(auto, using(crate::proofs::States::fault_erased, crate::proofs::States::fault_live))]
pub fn bad_slot(map: &IndexedMap<Narrow>, version: u16, t: Slot) -> bool
    requires { t.len ≡ 0 → ⊥ }
    ensures { (at : ℕ) → t ≡ slot_of map.now.m.now at
        → result ≡ bad_slot (ends_meet index_block_size map.now.index.now) map.now.m.now map.now.used version at }
{
    t.sym != 0 && !slot_good(map, version, t)
}

// Whether a symbol record is good.
#[tactic(auto, using(crate::proofs::Judging::size_two), unfolding(crate::specs::Judging::symbol_good, numbers::specs::Ranges::within))]
fn symbol_good(map: &IndexedMap<Narrow>, at: usize) -> bool
    requires { at < 4294967296 }
    ensures { result ≡ symbol_good (ends_meet index_block_size map.now.index.now) map.now.m.now map.now.used at }
{
    if at < Header::SIZE || map.used < at + 2 {
        return false;
    }
    let size = u16_at(map.m, at);
    size_good(size) && at + size as usize <= map.used && !map.meets(at, size as usize)
}

// Where slot j of the block that starts at `block` stands.
pub fn slot_place(version: u16, block: usize, j: usize) -> usize
    requires { (block ≤ 4294967296) × (j < block_cells) }
    ensures { result ≡ cell_in block (family_in version).slot j }
{
    if is_wide(version) {
        WideBlock::new(block).slot(j)
    } else {
        IndexBlock::new(block).slot(j)
    }
}

// What index blocks keep off of setup or info: in 9 to 11 nothing.
fn kept_off(wide: bool, part: Part) -> Part
    ensures { result ≡ kept_off wide part }
{
    if wide { Part { size: 0, ..part } } else { part }
}

// The chain of index blocks, as a kind: in 6 to 8 its blocks keep off setup and info. The other table is empty.
pub fn index_kind(h: Header) -> Kind
    ensures { result ≡ index_kind h }
{
    let wide = is_wide(h.version);
    let (size, page) = if wide {
        (Wide::BLOCK, Wide::PAGE)
    } else {
        (Narrow::BLOCK, Narrow::PAGE)
    };
    Kind {
        head: Header::INDEX,
        size,
        page,
        first: kept_off(wide, h.setup),
        second: kept_off(wide, h.info),
        other_size: IndexBlock::SIZE,
        other_page: Header::LIMIT,
    }
}
