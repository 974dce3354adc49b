// 7: the live slots, of a map of the layout L; and the first free one.
ghost use Rattle.std.specs.Prelude.{◌≡◌, Ok, ◌+◌, ◌*◌, ◌≤◌};
ghost use Rattle.refusals.specs.declared.Refusal.TheVariants.{BadSlot};
ghost use Rattle.refusals.specs.Refusals.{unless};
ghost use Rattle.numbers.specs.Below.{first};
ghost use Rattle.records.specs.Sizes.{block_cells};
ghost use Rattle.chain.specs.Cells.{cell_in};
ghost use Rattle.judge.specs.Judging.{version_of};
ghost use Rattle.judge.specs.Rules.{family_for, slot_at_of};
ghost use Rattle.accept.specs.Opens.{slot_fault_for};
ghost use Rattle.accept.specs.Verdicts.{cells_judged, slots_judged_of};

use super::OpenMap;
use chain::IndexedMap;
use judge::Layout;
use numbers::{u16_at, u32_at};
use records::Header;
use refusals::Refusal;
use slots::IndexBlock;

// 7, of one index block: the slots in their order, up to the first at fault. Where none is, the first free one, 256 where none is free.
fn judge_block_slots<L: Layout>(
    map: &IndexedMap<L>,
    version: u16,
    block: usize,
) -> Result<usize, Refusal>
    requires { (block + (family_for L.wide).block ≤ map.now.used) × (version ≡ version_of map.now.m.now) }
    ensures { result ≡ unless
        (cells_judged BadSlot
        (λ j. slot_fault_for L.wide map.now.m.now map.now.used map.now.index.now (cell_in block (family_for L.wide).slot j))
        (cell_in block (family_for L.wide).slot) block_cells)
        (Ok (first (λ j. L.free map.now.m.now (cell_in block (family_for L.wide).slot j)) block_cells)) }
{
    let mut free = IndexBlock::SLOTS;
    for j in 0..IndexBlock::SLOTS {
        let at = L::slot_place(block, j);
        if L::slot_at_fault(map, version, at) {
            return Err(Refusal::BadSlot { place: at as u32 });
        }
        if L::is_free(map.m, at) {
            free = free.min(j);
        }
    }
    Ok(free)
}

// 7: the live slot at fault of lowest number. Where there is none, the first free slot, 256 times the blocks where none is free: the slot that an add takes, in a
// new block then.
pub fn judge_slots<L: Layout>(opened: &OpenMap<L>) -> Result<usize, Refusal>
    ensures { result ≡ unless (slots_judged_of (family_for L.wide) opened.now.map.m.now opened.now.map.used opened.now.blocks)
        (Ok (first (λ s. L.free opened.now.map.m.now (slot_at_of (family_for L.wide) opened.now.map.m.now s)) (block_cells * opened.now.blocks))) }
{
    let m = opened.map.m;
    let n = opened.blocks;
    let version = u16_at(m, Header::VERSION);
    let mut at = Header::INDEX;
    let mut free = IndexBlock::SLOTS * n;
    for k in 0..n {
        at = u32_at(m, at) as usize;
        let found = judge_block_slots(&opened.map, version, at)?;
        if found < IndexBlock::SLOTS {
            free = free.min(IndexBlock::SLOTS * k + found);
        }
    }
    Ok(free)
}
