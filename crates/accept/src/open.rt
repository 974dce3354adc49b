// An open map, of the layout L.
ghost use Rattle.std.specs.Prelude.{◌≡◌, ◌≤◌, Ok};
ghost use Rattle.records.specs.Sizes.{header_size};
ghost use Rattle.chain.specs.Chains.{walked};
ghost use Rattle.chain.specs.Tables.{ends_meet};
ghost use Rattle.judge.specs.Rules.{family_for, index_rule_of, touches_of};
ghost use Rattle.accept.specs.Opens.{OpenOf};

use chain::IndexedMap;
use judge::Layout;

// A map that is open: its header fits in, and the walk of its index blocks ends after so many, which are in the table.
#[derive(Drop)]
pub struct OpenMap<'a, L: Layout> {
    pub map: IndexedMap<'a, L>,
    pub blocks: usize,
    pub ghost low: { header_size ≤ map.used },
    pub ghost walk: { walked (index_rule_of (family_for L.wide) map.m.now) map.m.now map.used ≡ Ok blocks },
    pub ghost touches: { ends_meet (family_for L.wide).block map.index.now ≡ touches_of (family_for L.wide) map.m.now blocks },
}

impl<'a, L: Layout> OpenMap<'a, L> {
    pub fn new(m: &'a [u8], used: usize, index: &'a [u32], blocks: usize) -> OpenMap<'a, L>
        requires { OpenOf (family_for L.wide) m.now used blocks index.now }
        ensures { (result.map.m.now ≡ m.now) × (result.map.used ≡ used) × (result.map.index.now ≡ index.now) × (result.blocks ≡ blocks) }
    {
        OpenMap {
            map: IndexedMap::new(m, used, index),
            blocks,
        }
    }
}
