// A type for each kind of record of a map and of a journal but for slots and objects: header, symbol blocks and records, journal records, with its size and
// small constructors: a block is made from where it starts, a symbol record has its size alone, the others are read from bytes. A journal record also has a
// writer.
#![tactic(auto)]

ghost use Rattle.std.specs.Prelude.{◌≡◌, ◌+◌, ◌-◌, ◌≤◌, ◌<◌, length};
ghost use Rattle.std.proofs.lemmas.List.Edits.{sets};
ghost use Rattle.records.specs.Sizes.{header_size, journal_record_size};
ghost use Rattle.records.specs.Headers.{header_of, part_of, pair_good, is_wide, file_type_good, version_good};
ghost use Rattle.records.specs.Symbols.{size_good};
ghost use Rattle.records.specs.Journals.{record_of, record_bytes, record_for, shape_good, is_unused};
ghost use Rattle.records.specs.Kinds.{code_of, Decodes};

use numbers::{put_u32_at, u16_at, u32_at};

// A part of a map that the header names: where it starts and how many bytes it has.
#[derive(Clone, Copy, Debug, PartialEq, Eq)]
pub struct Part {
    pub at: u32,
    pub size: u32,
}

impl Part {
    // The part whose position and size are stored from a place on.
    pub fn at(m: &[u8], at: usize) -> Part
        requires { at + 8 ≤ length m.now }
        ensures { result ≡ part_of m.now at }
    {
        Part {
            at: u32_at(m, at),
            size: u32_at(m, at + 4),
        }
    }
}

// What is read of a map's header, beside the two first links.
#[derive(Clone, Copy, Debug, PartialEq, Eq)]
pub struct Header {
    pub mark: u16,
    pub section: u16,
    pub file_type: u8,
    pub version: u16,
    pub setup: Part,
    pub info: Part,
}

impl Header {
    pub const SIZE: usize = 48;
    // A map is at most so long.
    pub const LIMIT: usize = 16777216;
    // A map of at most so many bytes is small, and so are its tables.
    pub const SMALL: usize = 1048576;

    // One that is at most so long gets smaller tables than the longest.
    pub const MIDDLE: usize = 4194304;
    // Where the version stands.
    pub const VERSION: usize = 4;

    pub const MARK: u16 = 3245;
    // Where the first link of each chain is stored.
    pub const SYMBOLS: usize = 8;

    pub const INDEX: usize = 12;
    // Where the position of setup and of info is stored, the size behind it.
    pub const SETUP: usize = 16;

    pub const INFO: usize = 24;

    // The header of a map.
    #[tactic(auto, unfolding(crate::specs::Headers::header_of))]
    pub fn of(m: &[u8]) -> Header
        requires { header_size ≤ length m.now }
        ensures { result ≡ header_of m.now }
    {
        Header {
            mark: u16_at(m, 0),
            section: u16_at(m, 2),
            file_type: m[2],
            version: u16_at(m, Header::VERSION),
            setup: Part::at(m, Header::SETUP),
            info: Part::at(m, Header::INFO),
        }
    }
}

// The accepted pairs of version and section mark.
#[tactic(auto, using(std::proofs::lemmas::Bool::Decides::nat_tests), unfolding(crate::specs::Headers::pair_good))]
fn pair_good(version: u16, section: u16) -> bool
    ensures { result ≡ pair_good version section }
{
    matches!((version, section), (6, 0) | (7, 7) | (8, 2 | 3))
}

// Whether a map of this version has the wide layout, that of 9 to 11.
#[tactic(auto, using(std::proofs::lemmas::Bool::Decides::nat_tests), unfolding(crate::specs::Headers::is_wide))]
pub fn is_wide(version: u16) -> bool
    ensures { result ≡ is_wide version }
{
    (9..=11).contains(&version)
}

// The file types that the documents list: 0 and 1, and 3 in 9 and 10, 8 in 11.
#[tactic(auto, using(std::proofs::lemmas::Bool::Decides::nat_tests), unfolding(crate::specs::Headers::file_type_good))]
fn file_type_good(version: u16, kind: u8) -> bool
    ensures { result ≡ file_type_good version kind }
{
    match version {
        11 => matches!(kind, 0 | 1 | 8),
        _ => matches!(kind, 0 | 1 | 3),
    }
}

// Whether the version is accepted: with its section mark in 6 to 8, with its file type in 9 to 11.
#[tactic(auto, using(std::proofs::lemmas::Bool::Decides::nat_tests), unfolding(crate::specs::Headers::version_good))]
pub fn version_good(h: Header) -> bool
    ensures { result ≡ version_good h }
{
    if is_wide(h.version) {
        file_type_good(h.version, h.file_type)
    } else {
        pair_good(h.version, h.section)
    }
}

// A link of a chain: where the next block starts, in so many bytes.
pub const LINK: usize = 4;

// A symbol block, by where it starts: a link, then 256 entries.
#[derive(Clone, Copy, Debug, PartialEq, Eq)]
pub struct SymbolBlock {
    pub at: usize,
}

impl SymbolBlock {
    pub const SIZE: usize = 1028;
    // Behind its link it has so many entries.
    pub const ENTRIES: usize = 256;
    // A table of them goes by pages of so many bytes, and has so many entries, or so many for a shorter map.
    pub const PAGE: usize = 1024;

    pub const TABLE: usize = 16385;

    pub const MIDDLE_TABLE: usize = 4097;

    pub const SMALL_TABLE: usize = 1025;

    pub const ENTRY: usize = 4;

    pub fn new(at: usize) -> SymbolBlock
        ensures { result.at ≡ at }
    {
        SymbolBlock { at }
    }
}

// Whether a symbol record's Size, read as signed, is enough.
#[tactic(auto, using(crate::proofs::Symbols::size_is, std::proofs::lemmas::Bool::Decides::nat_tests))]
pub fn size_good(size: u16) -> bool
    ensures { result ≡ size_good size }
{
    (SymbolRecord::SIZE..32768).contains(&size)
}

// A symbol record, by its Size.
#[derive(Clone, Copy, Debug, PartialEq, Eq)]
pub struct SymbolRecord {
    pub size: u16,
}

impl SymbolRecord {
    // The least Size: the part that all symbols have.
    pub const SIZE: u16 = 348;
}

// What an edit does.
#[derive(Clone, Copy, Debug, PartialEq, Eq)]
pub enum EditKind {
    Add = JournalRecord::ADD as isize,
    Remove = JournalRecord::REMOVE as isize,
    Reinstate = JournalRecord::REINSTATE as isize,
}

// A number that stands for no kind of edit.
#[derive(Clone, Copy, Debug, PartialEq, Eq)]
pub struct UnknownKind(pub u32);

impl TryFrom<u32> for EditKind {
    type Error = UnknownKind;

    ghost try_from_gives = { Decodes };

    #[tactic(auto, using(std::proofs::lemmas::Bool::Decides::nat_tests), unfolding(crate::specs::Journals::kind_good))]
    fn try_from(code: u32) -> Result<Self, UnknownKind> {
        match code {
            1 => Ok(EditKind::Add),
            2 => Ok(EditKind::Remove),
            3 => Ok(EditKind::Reinstate),
            _ => Err(UnknownKind(code)),
        }
    }
}

impl From<EditKind> for u32 {
    ghost from_gives = { λ kind n. n ≡ code_of kind };

    fn from(kind: EditKind) -> u32 {
        kind as u32
    }
}

// A record of a journal. `kind` is the byte and the three zeros behind it, `zeros` the last four bytes: numbers, since a journal may hold any bytes.
#[derive(Clone, Copy, Debug, Default, PartialEq, Eq)]
pub struct JournalRecord {
    pub number: u32,
    pub kind: u32,
    pub slot: u32,
    pub zeros: u32,
}

impl JournalRecord {
    pub const SIZE: usize = 16;

    // A journal is at most so long.
    pub const LIMIT: usize = 65536;

    pub const ADD: u32 = 1;

    pub const REMOVE: u32 = 2;

    pub const REINSTATE: u32 = 3;

    // The record of a done edit.
    pub fn new(number: u32, kind: u32, slot: u32) -> JournalRecord
        ensures { result ≡ record_for number kind slot }
    {
        JournalRecord {
            number,
            kind,
            slot,
            zeros: 0,
        }
    }

    // The record at a place.
    #[tactic(auto, unfolding(crate::specs::Journals::record_of))]
    pub fn at(j: &[u8], at: usize) -> JournalRecord
        requires { at + journal_record_size ≤ length j.now }
        ensures { result ≡ record_of j.now at }
    {
        JournalRecord {
            number: u32_at(j, at),
            kind: u32_at(j, at + 4),
            slot: u32_at(j, at + 8),
            zeros: u32_at(j, at + 12),
        }
    }

    // The 16 bytes, at the start of a part.
    #[tactic(auto, unfolding(crate::specs::Journals::record_bytes, numbers::specs::Bytes::bytes_of))]
    pub fn put(self, part: &mut [u8])
        requires { journal_record_size ≤ length part.old }
        ensures { part.new ≡ sets part.old 0 (record_bytes self) }
    {
        put_u32_at(part, 0, self.number);
        put_u32_at(part, 4, self.kind);
        put_u32_at(part, 8, self.slot);
        put_u32_at(part, 12, self.zeros);
    }

    // Whether the number is not 0, the kind is known and the zeros are zeros.
    #[tactic(auto, using(std::proofs::lemmas::Bool::Decides::nat_tests), unfolding(crate::specs::Journals::shape_good, crate::specs::Journals::kind_good))]
    pub fn shape_good(self) -> bool
        ensures { result ≡ shape_good self }
    {
        self.number != 0 && EditKind::try_from(self.kind).is_ok() && self.zeros == 0
    }

    // Whether all its bytes are zero.
    #[tactic(auto, using(std::proofs::lemmas::Bool::Decides::nat_tests), unfolding(crate::specs::Journals::is_unused))]
    pub fn is_unused(self) -> bool
        ensures { result ≡ is_unused self }
    {
        self == JournalRecord::default()
    }
}
