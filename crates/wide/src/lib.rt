// What OCAD 9, 10 and 11 have of their own: slots of 40 bytes, the index blocks that have them, the objects that they point to, and symbol records; and whether
// one of them is good.
#![tactic(auto)]

ghost use Rattle.std.specs.Prelude.{◌≡◌, ℕ, ◌+◌, ◌*◌, ◌≤◌, ◌<◌, length, MatchOption};
ghost use Rattle.std.proofs.Common.{lit≤};
ghost use Rattle.records.specs.Sizes.{wide_block_size, wide_page, wide_slot_size, wide_header_size, block_cells, link_size};
ghost use Rattle.chain.specs.Tables.{ends_meet};
ghost use Rattle.wide.specs.Slots.{wide_slot_of, wide_live, wide_object_of, wide_type_good, wide_bytes, wide_object_good, wide_slot_good, wide_bad_slot};
ghost use Rattle.wide.specs.Symbols.{wide_symbol_good};

use chain::{BlockSizes, IndexedMap};
use numbers::{at_most, u16_at, u32_at};
use records::{Header, LINK};

// An index block of 9 to 11, by where it starts: a link, then 256 slots.
#[derive(Clone, Copy)]
pub struct WideBlock {
    pub at: usize,
}

impl WideBlock {
    pub const SIZE: usize = 10244;
    // A table of them goes by pages of so many bytes.
    pub const PAGE: usize = 8192;

    pub fn new(at: usize) -> WideBlock
        ensures { result.at ≡ at }
    {
        WideBlock { at }
    }

    // Where slot j of the block stands.
    pub fn slot(self, j: usize) -> usize
        requires { (self.at ≤ 4294967296) × (j < block_cells) }
        ensures { result ≡ self.at + link_size + wide_slot_size * j }
    {
        self.at + LINK + WideSlot::SIZE * j
    }
}

// OCAD 9, 10 and 11.
pub struct Wide;

impl BlockSizes for Wide {
    const BLOCK: usize = WideBlock::SIZE;

    const PAGE: usize = WideBlock::PAGE;

    ghost BLOCK = { wide_block_size };

    ghost PAGE = { wide_page };

    ghost block_some = { lit≤ tt };

    ghost block_most = { lit≤ tt };

    ghost page_some = { lit≤ tt };
}

// A slot of 9 to 11. Coordinates are raw; Sym is kept as its 32 bits. It is a type of its own: its fields are not those of 6 to 8, and stand elsewhere.
#[derive(Clone, Copy)]
pub struct WideSlot {
    pub left: u32,
    pub bottom: u32,
    pub right: u32,
    pub top: u32,
    pub position: u32,
    pub len: u32,
    pub sym: u32,
    pub status: u8,
}

impl WideSlot {
    pub const SIZE: usize = 40;

    // The slot at a place.
    #[tactic(auto, unfolding(crate::specs::Slots::wide_slot_of))]
    pub fn at(m: &[u8], at: usize) -> WideSlot
        requires { at + wide_slot_size ≤ length m.now }
        ensures { result ≡ wide_slot_of m.now at }
    {
        WideSlot {
            left: u32_at(m, at),
            bottom: u32_at(m, at + 4),
            right: u32_at(m, at + 8),
            top: u32_at(m, at + 12),
            position: u32_at(m, at + 16),
            len: u32_at(m, at + 20),
            sym: u32_at(m, at + 24),
            status: m[at + 30],
        }
    }

    // Normal or hidden, with a Len.
    #[tactic(auto, unfolding(crate::specs::Slots::wide_live))]
    pub fn is_live(self) -> bool
        ensures { result ≡ wide_live self }
    {
        self.len != 0 && matches!(self.status, 1 | 2)
    }
}

// What is read of an object's header.
#[derive(Clone, Copy)]
pub struct WideObject {
    pub sym: u32,
    pub kind: u8,
    pub items: u32,
    pub texts: u16,
}

impl WideObject {
    pub const SIZE: usize = 40;
    // The bytes beside the pairs where Len counts the pairs; and of a pair.
    pub const COUNTED: usize = 32;

    pub const PAIR: usize = 8;

    // The header of the object that starts a part.
    #[tactic(auto, unfolding(crate::specs::Slots::wide_object_of))]
    pub fn of(part: &[u8]) -> WideObject
        requires { wide_header_size ≤ length part.now }
        ensures { result ≡ wide_object_of part.now }
    {
        WideObject {
            sym: u32_at(part, 0),
            kind: part[4],
            items: u32_at(part, 8),
            texts: u16_at(part, 12),
        }
    }
}

// Whether an object's type is 1 to 7.
#[tactic(auto, unfolding(crate::specs::Slots::wide_type_good))]
fn wide_type_good(kind: u8) -> bool
    ensures { result ≡ wide_type_good kind }
{
    matches!(kind, 1..=7)
}

// The bytes of an object of so many pairs by its slot's Len, in both meanings; None: neither.
#[tactic(auto, unfolding(crate::specs::Slots::wide_bytes))]
fn wide_bytes(len: u32, items: u32, texts: u16) -> Option<usize>
    ensures { MatchOption result (wide_bytes len (items + texts) ≡ 0) (λ n. (n ≡ wide_bytes len (items + texts)) × (0 < n)) }
{
    let n = len as usize;
    let k = items as usize + texts as usize;
    if n == WideObject::SIZE + WideObject::PAIR * k {
        Some(n)
    } else if n == k {
        Some(WideObject::COUNTED + WideObject::PAIR * n)
    } else {
        None
    }
}

// Whether a slot's object is good. An object has 40 bytes at least in both meanings of Len, so its header is read after that test.
#[tactic(auto, using(crate::proofs::Slots::object_laws), unfolding(crate::specs::Slots::wide_fits, crate::specs::Slots::wide_header_fits, numbers::specs::Ranges::within))]
fn wide_object_good(map: &IndexedMap<Wide>, t: WideSlot) -> bool
    requires { t.len ≡ 0 → ⊥ }
    ensures { result ≡ wide_object_good (ends_meet wide_block_size map.now.index.now) map.now.m.now map.now.used t }
{
    let at = t.position as usize;
    if at < Header::SIZE || map.used < at + WideObject::SIZE {
        return false;
    }
    let h = WideObject::of(&map.m[at..]);
    if h.sym != t.sym || !wide_type_good(h.kind) {
        return false;
    }
    let Some(bytes) = wide_bytes(t.len, h.items, h.texts) else {
        return false;
    };
    at + bytes <= map.used && !map.meets(at, bytes)
}

// Whether a slot that has a Len would be good as a live one.
#[tactic(auto, unfolding(crate::specs::Slots::wide_slot_good))]
fn wide_slot_good(map: &IndexedMap<Wide>, t: WideSlot) -> bool
    requires { t.len ≡ 0 → ⊥ }
    ensures { result ≡ wide_slot_good (ends_meet wide_block_size map.now.index.now) map.now.m.now map.now.used t }
{
    at_most(t.left, t.right) && wide_object_good(map, t) && at_most(t.bottom, t.top)
}

// Whether a slot is live and not good.
#[tactic(auto, using(crate::proofs::Slots::fault_laws))]
pub fn wide_bad_slot(map: &IndexedMap<Wide>, t: WideSlot) -> bool
    ensures { (at : ℕ) → t ≡ wide_slot_of map.now.m.now at
        → result ≡ wide_bad_slot (ends_meet wide_block_size map.now.index.now) map.now.m.now map.now.used at }
{
    t.is_live() && !wide_slot_good(map, t)
}

// A symbol record of 9 to 11, by its Size.
#[derive(Clone, Copy)]
pub struct WideRecord {
    pub size: u32,
}

impl WideRecord {
    // The least Size: the part that all symbols of 9 have.
    pub const SIZE: usize = 572;
}

// Whether a symbol record is good. A Size that is negative is past every map's end.
#[tactic(auto, using(crate::proofs::Symbols::size_laws), unfolding(crate::specs::Symbols::wide_symbol_good, numbers::specs::Ranges::within))]
pub fn wide_symbol_good(map: &IndexedMap<Wide>, at: usize) -> bool
    requires { at < 4294967296 }
    ensures { result ≡ wide_symbol_good (ends_meet wide_block_size map.now.index.now) map.now.m.now map.now.used at }
{
    if at < Header::SIZE || map.used < at + 4 {
        return false;
    }
    let size = u32_at(map.m, at) as usize;
    WideRecord::SIZE <= size && at + size <= map.used && !map.meets(at, size)
}
