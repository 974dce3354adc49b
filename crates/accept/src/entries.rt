// 6: the symbol blocks and their entries, of a map of the layout L.
ghost use Rattle.std.specs.Prelude.{◌≡◌, ◌+◌, ◌*◌, ◌≤◌, ◌<◌, length};
ghost use Rattle.refusals.specs.declared.Refusal.TheVariants.{BadSymbol};
ghost use Rattle.records.specs.Sizes.{symbol_block_size, symbol_page, entry_size, block_cells};
ghost use Rattle.chain.specs.Chains.{taken};
ghost use Rattle.chain.specs.Cells.{cell_in};
ghost use Rattle.judge.specs.Rules.{family_for, symbol_rule_of};
ghost use Rattle.accept.specs.Opens.{entry_fault};
ghost use Rattle.accept.specs.Verdicts.{cells_judged, entries_judged_of, symbols_judged_of};

use super::OpenMap;
use chain::{IndexedMap, walk_chain};
use judge::Layout;
use numbers::u32_at;
use records::{Header, LINK, SymbolBlock};
use refusals::Refusal;

// 6, of one symbol block: the first entry at fault.
fn judge_block_entries<L: Layout>(map: &IndexedMap<L>, block: usize) -> Result<(), Refusal>
    requires { block + symbol_block_size ≤ map.now.used }
    ensures { result
        ≡ cells_judged BadSymbol (λ e. entry_fault L.wide map.now.m.now map.now.used map.now.index.now (cell_in block entry_size e))
        (cell_in block entry_size) block_cells }
{
    for e in 0..SymbolBlock::ENTRIES {
        let at = block + LINK + SymbolBlock::ENTRY * e;
        let p = u32_at(map.m, at) as usize;
        if L::entry_at_fault(map, p) {
            return Err(Refusal::BadSymbol { place: at as u32 });
        }
    }
    Ok(())
}

// 6, of the first k symbol blocks: the first entry at fault.
fn judge_entries<L: Layout>(opened: &OpenMap<L>, k: usize) -> Result<(), Refusal>
    requires { k ≡ taken (symbol_rule_of (family_for L.wide) opened.now.map.m.now opened.now.blocks) opened.now.map.m.now opened.now.map.used }
    ensures { result ≡ entries_judged_of (family_for L.wide) opened.now.map.m.now opened.now.map.used opened.now.blocks k }
{
    let mut at = Header::SYMBOLS;
    for i in 0..k {
        at = u32_at(opened.map.m, at) as usize;
        judge_block_entries(&opened.map, at)?;
    }
    Ok(())
}

// 6: the symbol blocks and their entries, with a table of N entries. The table stands in this function alone: so the compiler gives each size its own room, and
// no more than the map needs is taken.
fn judge_with_table<L: Layout, const N: usize>(opened: &OpenMap<L>) -> Result<(), Refusal>
    requires { (opened.now.map.used + symbol_page ≤ N * symbol_page) × (N ≤ 65536) }
    ensures { result ≡ symbols_judged_of (family_for L.wide) opened.now.map.m.now opened.now.map.used opened.now.blocks }
{
    let map = &opened.map;
    let mut t = [0u32; N];
    match walk_chain(map.m, map.used, L::symbol_kind(), map.index, &mut t) {
        Ok(k) => judge_entries(opened, k),
        Err(f) => {
            judge_entries(opened, f.taken)?;
            Err(Refusal::BadSymbol { place: f.place })
        }
    }
}

// 6, with a table as large as the map needs: none where there are no symbol blocks.
pub fn judge_symbols<L: Layout>(opened: &OpenMap<L>) -> Result<(), Refusal>
    ensures { result ≡ symbols_judged_of (family_for L.wide) opened.now.map.m.now opened.now.map.used opened.now.blocks }
{
    let used = opened.map.used;
    if u32_at(opened.map.m, Header::SYMBOLS) == 0 {
        return Ok(());
    }
    if used <= Header::SMALL {
        judge_with_table::<L, { SymbolBlock::SMALL_TABLE }>(opened)
    } else if used <= Header::MIDDLE {
        judge_with_table::<L, { SymbolBlock::MIDDLE_TABLE }>(opened)
    } else {
        judge_with_table::<L, { SymbolBlock::TABLE }>(opened)
    }
}
