// Slots, the index blocks that have them, and the objects that they point to: a type for each, with its size and small constructors.
#![tactic(auto)]

ghost use Rattle.std.specs.Prelude.{◌≡◌, ◌+◌, ◌-◌, ◌*◌, ◌≤◌, ◌<◌, length};
ghost use Rattle.std.proofs.lemmas.List.Edits.{sets};
ghost use Rattle.records.specs.Sizes.{slot_size, object_header_size, block_cells, link_size};
ghost use Rattle.slots.specs.Slots.{slot_of, slot_bytes, state_of, found_at, bytes_in, bytes_in_range, len_of};
ghost use Rattle.slots.specs.Objects.{object_of, type_good};

use numbers::{put_u16_at, put_u32_at, u16_at, u32_at};
use records::LINK;

// An index block, by where it starts: a link, then 256 slots.
#[derive(Clone, Copy, Debug, PartialEq, Eq)]
pub struct IndexBlock {
    pub at: usize,
}

impl IndexBlock {
    pub const SIZE: usize = 6148;
    // Behind its link it has so many slots.
    pub const SLOTS: usize = 256;
    // The largest map has so many, and the largest small one.
    pub const MOST: usize = 2728;

    pub const SMALL_MOST: usize = 170;
    // A table of them goes by pages of so many bytes, and has so many entries, or so many for a small map.
    pub const PAGE: usize = 4096;

    pub const TABLE: usize = 4097;

    pub const SMALL_TABLE: usize = 257;

    pub fn new(at: usize) -> IndexBlock
        ensures { result.at ≡ at }
    {
        IndexBlock { at }
    }

    // Where slot j of the block stands.
    pub fn slot(self, j: usize) -> usize
        requires { (self.at ≤ 4294967296) × (j < block_cells) }
        ensures { result ≡ self.at + link_size + slot_size * j }
    {
        self.at + LINK + Slot::SIZE * j
    }
}

#[derive(Clone, Copy, Debug, PartialEq, Eq)]
pub enum State {
    Free,
    Erased,
    Live,
}

// A slot of an index block. Coordinates are raw; Sym is kept as its sixteen bits.
#[derive(Clone, Copy, Debug, PartialEq, Eq)]
pub struct Slot {
    pub left: u32,
    pub bottom: u32,
    pub right: u32,
    pub top: u32,
    pub position: u32,
    pub len: u16,
    pub sym: u16,
}

// What the slot reader answers: the fields, which of the three states, and where in the file the slot is.
#[derive(Clone, Copy, Debug, PartialEq, Eq)]
pub struct Found {
    pub slot: Slot,
    pub state: State,
    pub place: usize,
}

impl Slot {
    pub const SIZE: usize = 24;
    // Where Len and Sym stand in a slot.
    pub const LEN: usize = 20;

    pub const SYM: usize = 22;

    // The slot at a place.
    #[tactic(auto, unfolding(crate::specs::Slots::slot_of))]
    pub fn at(m: &[u8], at: usize) -> Slot
        requires { at + slot_size ≤ length m.now }
        ensures { result ≡ slot_of m.now at }
    {
        Slot {
            left: u32_at(m, at),
            bottom: u32_at(m, at + 4),
            right: u32_at(m, at + 8),
            top: u32_at(m, at + 12),
            position: u32_at(m, at + 16),
            len: u16_at(m, at + Slot::LEN),
            sym: u16_at(m, at + Slot::SYM),
        }
    }

    // The 24 bytes, at the start of a part. Every byte behind them is kept.
    #[tactic(auto, unfolding(crate::specs::Slots::slot_bytes, numbers::specs::Bytes::bytes_of))]
    pub fn put(self, part: &mut [u8])
        requires { slot_size ≤ length part.old }
        ensures { part.new ≡ sets part.old 0 (slot_bytes self) }
    {
        put_u32_at(part, 0, self.left);
        put_u32_at(part, 4, self.bottom);
        put_u32_at(part, 8, self.right);
        put_u32_at(part, 12, self.top);
        put_u32_at(part, 16, self.position);
        put_u16_at(part, Slot::LEN, self.len);
        put_u16_at(part, Slot::SYM, self.sym);
    }

    // Free, erased or live.
    #[tactic(auto, using(std::proofs::lemmas::Bool::Decides::nat_tests), unfolding(crate::specs::Slots::state_of))]
    pub fn state(self) -> State
        ensures { result ≡ state_of self }
    {
        match (self.len, self.sym) {
            (0, _) => State::Free,
            (_, 0) => State::Erased,
            _ => State::Live,
        }
    }
}

// The slot reader.
#[tactic(auto, unfolding(crate::specs::Slots::found_at))]
pub fn read_slot(m: &[u8], at: usize) -> Found
    requires { at + slot_size ≤ length m.now }
    ensures { result ≡ found_at m.now at }
{
    let slot = Slot::at(m, at);
    Found {
        slot,
        state: slot.state(),
        place: at,
    }
}

// The bytes of a slot's object: those that Len leaves out, and those that it counts.
#[tactic(auto, using(std::proofs::lemmas::Bool::Decides::nat_tests), unfolding(crate::specs::Slots::bytes_in))]
pub fn bytes_in(version: u16, len: u16) -> usize
    ensures { result ≡ bytes_in version len }
{
    if version == 8 {
        ObjectHeader::SIZE + ObjectHeader::PAIR * usize::from(len)
    } else {
        usize::from(len)
    }
}

// Whether an object's bytes lie in the range that objects have: room for one pair at least, and for as many as a Len may say in 8 at most.
#[tactic(auto, using(std::proofs::lemmas::Bool::Decides::nat_tests), unfolding(crate::specs::Slots::bytes_in_range))]
pub fn bytes_in_range(bytes: usize) -> bool
    ensures { result ≡ bytes_in_range bytes }
{
    (ObjectHeader::SIZE + ObjectHeader::PAIR..=ObjectHeader::MOST_BYTES).contains(&bytes)
}

// The Len of an object of k pairs.
#[tactic(auto, using(std::proofs::lemmas::Bool::Decides::nat_tests), unfolding(crate::specs::Slots::len_of))]
pub fn len_of(version: u16, k: usize) -> usize
    requires { k ≤ 131070 }
    ensures { result ≡ len_of version k }
{
    if version == 8 {
        k
    } else {
        ObjectHeader::SIZE + ObjectHeader::PAIR * k
    }
}

// What is read of an object's header.
#[derive(Clone, Copy, Debug, PartialEq, Eq)]
pub struct ObjectHeader {
    pub sym: u16,
    pub kind: u8,
    pub items: u16,
    pub texts: u16,
}

impl ObjectHeader {
    pub const SIZE: usize = 32;
    // A coordinate pair.
    pub const PAIR: usize = 8;
    // How many pairs an object may have in 8; and an added one in 6 and 7.
    pub const MOST_PAIRS_8: u16 = 32768;

    pub const MOST_PAIRS: usize = 8187;
    // An object has at most so many bytes.
    pub const MOST_BYTES: usize = 262176;

    // The header of the object that starts a part.
    #[tactic(auto, unfolding(crate::specs::Objects::object_of))]
    pub fn of(part: &[u8]) -> ObjectHeader
        requires { object_header_size ≤ length part.now }
        ensures { result ≡ object_of part.now }
    {
        ObjectHeader {
            sym: u16_at(part, 0),
            kind: part[2],
            items: u16_at(part, 4),
            texts: u16_at(part, 6),
        }
    }
}

// Whether an object's type is 1 to 5.
#[tactic(auto, using(std::proofs::lemmas::Bool::Decides::nat_tests), unfolding(crate::specs::Objects::type_good))]
pub fn type_good(kind: u8) -> bool
    ensures { result ≡ type_good kind }
{
    (1..=5).contains(&kind)
}
