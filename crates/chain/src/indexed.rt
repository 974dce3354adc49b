// A map with the table of its index blocks, by the sizes that its layout gives them.
ghost use Rattle.std.specs.Prelude.{◌≡◌, ℕ, ◌+◌, ◌≤◌, ◌<◌};
ghost use Rattle.records.specs.Sizes.{map_limit};
ghost use Rattle.chain.specs.Indexed.{Indexed};
ghost use Rattle.chain.specs.Tables.{ends_meet};

use super::meets_block;
use std::marker::PhantomData;

// The bytes of an index block, and of a page of the table of index blocks.
pub trait BlockSizes {
    const BLOCK: usize;

    const PAGE: usize;

    ghost BLOCK: { ℕ };

    ghost PAGE: { ℕ };

    ghost block_some: { 0 < BLOCK };

    ghost block_most: { BLOCK ≤ 65536 };

    ghost page_some: { 0 < PAGE };
}

// A map's first `used` bytes, with the table of its index blocks, filled.
#[derive(Drop)]
pub struct IndexedMap<'a, S: BlockSizes> {
    pub m: &'a [u8],
    pub used: usize,
    pub index: &'a [u32],
    pub sizes: PhantomData<S>,
    pub ghost indexed: { Indexed S.BLOCK S.PAGE m.now used index.now },
}

impl<'a, S: BlockSizes> IndexedMap<'a, S> {
    pub fn new(m: &'a [u8], used: usize, index: &'a [u32]) -> IndexedMap<'a, S>
        requires { Indexed S.BLOCK S.PAGE m.now used index.now }
        ensures { (result.m.now ≡ m.now) × (result.used ≡ used) × (result.index.now ≡ index.now) }
    {
        IndexedMap {
            m,
            used,
            index,
            sizes: PhantomData,
        }
    }

    // Whether an index block shares a byte with the range.
    pub fn meets(&self, start: usize, len: usize) -> bool
        requires { (0 < len) × (start + len ≤ self.now.used) }
        ensures { result ≡ ends_meet S.BLOCK self.now.index.now start len }
    {
        meets_block(self.index, S::PAGE, S::BLOCK, start, len)
    }
}
