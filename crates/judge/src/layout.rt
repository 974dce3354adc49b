// The two layouts of a map, as one trait: what each has of its own. What is written over `L: Layout` is compiled for each, with its sizes as constants.
ghost use Rattle.std.specs.Prelude.{◌≡◌, ℕ, ◌+◌, ◌*◌, ◌≤◌, ◌<◌, List, Bool, true, false, refl, length};
ghost use Rattle.std.proofs.Common.{lit≤};
ghost use Rattle.numbers.specs.Bytes.{u32_at};
ghost use Rattle.records.specs.Sizes.{index_block_size, index_page, slot_size, wide_slot_size, block_cells};
ghost use Rattle.chain.specs.Cells.{cell_in};
ghost use Rattle.chain.specs.Tables.{ends_meet};
ghost use Rattle.judge.specs.Judging.{version_of, no_len};
ghost use Rattle.judge.specs.Rules.{family_for};
ghost use Rattle.judge.specs.Kinds.{symbol_kind};

use super::{bad_slot, symbol_good};
use chain::{BlockSizes, IndexedMap, Kind};
use records::{Header, LINK, Part, SymbolBlock};
use slots::{IndexBlock, Slot};
use wide::{Wide, WideSlot, wide_bad_slot, wide_symbol_good};

pub trait Layout: BlockSizes {
    // The bytes of a slot.
    const SLOT: usize;

    ghost SLOT: { ℕ };

    // Which of the two it is.
    ghost wide: { Bool };

    // Whether the slot at a place is one that an add may take.
    ghost free: { List ℕ → ℕ → Bool };

    fn is_free(m: &[u8], at: usize) -> bool
        requires { at + (family_for wide).slot ≤ length m.now }
        ensures { result ≡ free m.now at };

    // Whether the slot at a place is live.
    fn is_live(m: &[u8], at: usize) -> bool
        requires { at + (family_for wide).slot ≤ length m.now }
        ensures { result ≡ (family_for wide).live m.now at };

    // Whether the slot at a place is live and not good.
    fn slot_at_fault(map: &IndexedMap<Self>, version: u16, at: usize) -> bool
    where
        Self: Sized,
        requires { (at + (family_for wide).slot ≤ map.now.used) × (version ≡ version_of map.now.m.now) }
        ensures { result
            ≡ (family_for wide).slot_at_fault (ends_meet (family_for wide).block map.now.index.now) map.now.m.now map.now.used at };

    // Whether a symbol entry that says p is used and its record is not good.
    fn entry_at_fault(map: &IndexedMap<Self>, p: usize) -> bool
    where
        Self: Sized,
        requires { p < 4294967296 }
        ensures { (at : ℕ) → p ≡ u32_at map.now.m.now at
            → result ≡ (family_for wide).entry_at_fault (ends_meet (family_for wide).block map.now.index.now) map.now.m.now map.now.used at };

    ghost block_is: { Self.BLOCK ≡ (family_for wide).block };

    ghost page_is: { Self.PAGE ≡ (family_for wide).page };

    ghost slot_is: { SLOT ≡ (family_for wide).slot };

    // Where slot j of the index block that starts at `block` stands.
    final fn slot_place(block: usize, j: usize) -> usize
        requires { (block ≤ 4294967296) × (j < block_cells) }
        ensures { result ≡ cell_in block (family_for wide).slot j }
    {
        block + LINK + Self::SLOT * j
    }

    // The chain of symbol blocks, as a kind: its blocks keep off the index blocks.
    final fn symbol_kind() -> Kind
        ensures { result ≡ symbol_kind (family_for wide) }
    {
        let nothing = Part { at: 0, size: 0 };
        Kind {
            head: Header::SYMBOLS,
            size: SymbolBlock::SIZE,
            page: SymbolBlock::PAGE,
            first: nothing,
            second: nothing,
            other_size: Self::BLOCK,
            other_page: Self::PAGE,
        }
    }
}

// OCAD 6, 7 and 8.
pub struct Narrow;

impl BlockSizes for Narrow {
    const BLOCK: usize = IndexBlock::SIZE;

    const PAGE: usize = IndexBlock::PAGE;

    ghost BLOCK = { index_block_size };

    ghost PAGE = { index_page };

    ghost block_some = { lit≤ tt };

    ghost block_most = { lit≤ tt };

    ghost page_some = { lit≤ tt };
}

impl Layout for Narrow {
    const SLOT: usize = Slot::SIZE;

    ghost SLOT = { slot_size };

    ghost wide = { false };

    ghost free = { no_len };

    #[tactic(auto, unfolding(slots::specs::Slots::slot_of))]
    fn is_free(m: &[u8], at: usize) -> bool {
        Slot::at(m, at).len == 0
    }

    // Len is read first and alone: where many slots are free, no other field is read (DECISIONS, C9).
    #[tactic(auto, using(crate::proofs::States::live_free, crate::proofs::States::live_taken))]
    fn is_live(m: &[u8], at: usize) -> bool {
        !Self::is_free(m, at) && Slot::at(m, at).sym != 0
    }

    #[tactic(auto, using(crate::proofs::States::fault_unjudged, crate::proofs::States::len_taken))]
    fn slot_at_fault(map: &IndexedMap<Narrow>, version: u16, at: usize) -> bool {
        !Self::is_free(map.m, at) && bad_slot(map, version, Slot::at(map.m, at))
    }

    #[tactic(auto, unfolding(crate::specs::Judging::bad_entry))]
    fn entry_at_fault(map: &IndexedMap<Narrow>, p: usize) -> bool {
        p != 0 && !symbol_good(map, p)
    }

    ghost block_is = { refl };

    ghost page_is = { refl };

    ghost slot_is = { refl };
}

impl Layout for Wide {
    const SLOT: usize = WideSlot::SIZE;

    ghost SLOT = { wide_slot_size };

    ghost wide = { true };

    // No edit takes such a map.
    ghost free = { λ m p. false };

    fn is_free(_m: &[u8], _at: usize) -> bool {
        false
    }

    fn is_live(m: &[u8], at: usize) -> bool {
        WideSlot::at(m, at).is_live()
    }

    fn slot_at_fault(map: &IndexedMap<Wide>, _version: u16, at: usize) -> bool {
        wide_bad_slot(map, WideSlot::at(map.m, at))
    }

    #[tactic(auto, unfolding(wide::specs::Symbols::wide_bad_entry))]
    fn entry_at_fault(map: &IndexedMap<Wide>, p: usize) -> bool {
        p != 0 && !wide_symbol_good(map, p)
    }

    ghost block_is = { refl };

    ghost page_is = { refl };

    ghost slot_is = { refl };
}
