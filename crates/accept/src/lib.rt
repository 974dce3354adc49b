// The check of a map: document 01's refusals 1 to 7, or accepted.
#![tactic(auto)]

mod entries;
mod fields;
mod live;
mod open;

ghost use Rattle.std.specs.Prelude.{◌≡◌, Ok, ℕ, ◌+◌, ◌*◌, ◌≤◌, ◌<◌, length};
ghost use Rattle.records.specs.Sizes.{header_size, index_block_size, index_page, map_limit};
ghost use Rattle.records.specs.Headers.{index_head};
ghost use Rattle.chain.specs.Chains.{walked};
ghost use Rattle.chain.specs.Tables.{Empty, Placed, Filled, Table, EndsTable};
ghost use Rattle.accept.specs.declared.ExaminedMap.TheVariants.{Accepted};
ghost use Rattle.judge.specs.Rules.{family_for, family_of, index_rule_of};
ghost use Rattle.refusals.specs.Refusals.{unless};
ghost use Rattle.accept.specs.Opens.{opened_after, opened_of, OpenOf, Open, Opens, blocks_of, with_free};
ghost use Rattle.accept.specs.Verdicts.{symbols_judged_of, slots_judged, after_index, verdict, Checked};

use chain::{fill, walk_chain};
use entries::judge_symbols;
use fields::judge_header;
use judge::{Layout, Narrow, Wide, index_kind};
use live::judge_slots;
use numbers::{u16_at, u32_at};
pub use open::OpenMap;
use records::{Header, is_wide};
use refusals::Refusal;
use slots::IndexBlock;

// What the examination for an edit finds in a map that is accepted: the number of index blocks and the first free slot, 256 times the blocks where none is free;
// or that it is of 9 to 11, which no edit takes.
#[derive(Clone, Copy)]
pub enum ExaminedMap {
    Accepted { blocks: usize, free: usize },
    Wide { blocks: usize },
}

impl ExaminedMap {
    // The number of index blocks.
    fn blocks(self) -> usize
        ensures { result ≡ blocks_of self }
    {
        match self {
            ExaminedMap::Accepted { blocks, .. } | ExaminedMap::Wide { blocks } => blocks,
        }
    }
}

// 6, of a map of the layout L whose index blocks are good. Their table is filled first.
fn open_symbols<L: Layout>(
    m: &[u8],
    used: usize,
    index: &mut [u32],
    n: usize,
) -> Result<usize, Refusal>
    requires { (header_size ≤ used) × (used ≤ map_limit) × (used ≤ length m.now) × (used + index_page ≤ length index.old * index_page)
        × (walked (index_rule_of (family_for L.wide) m.now) m.now used ≡ Ok n) × Placed (family_for L.wide).page index.old
        × Table index_head (family_for L.wide).page m.now n index.old }
    ensures { (result ≡ unless (symbols_judged_of (family_for L.wide) m.now used n) (Ok n))
        × ((k : ℕ) → result ≡ Ok k → OpenOf (family_for L.wide) m.now used k index.new) }
{
    fill(index, (used - 1) / L::PAGE + 2, L::BLOCK as u32);
    judge_symbols(&OpenMap::<L>::new(m, used, index, n))?;
    Ok(n)
}

// 5, then 6.
fn open_index(m: &[u8], used: usize, index: &mut [u32]) -> Result<usize, Refusal>
    requires { (header_size ≤ used) × (used ≤ map_limit) × (used ≤ length m.now) × (used + index_page ≤ length index.old * index_page) × Empty index.old }
    ensures { (result ≡ opened_after m.now used (walked (index_rule_of (family_of m.now) m.now) m.now used))
        × Opens m.now used index.new result }
{
    let none = [0u32; 2];
    let h = Header::of(m);
    match walk_chain(m, used, index_kind(h), &none, index) {
        Ok(n) => {
            if is_wide(h.version) {
                open_symbols::<Wide>(m, used, index, n)
            } else {
                open_symbols::<Narrow>(m, used, index, n)
            }
        }
        Err(f) => Err(Refusal::BadIndex { place: f.place }),
    }
}

// 1 to 6, with a lent table, empty before, that has the index blocks, filled, afterwards where they are good. What is left of the check is 7.
pub fn open_map(m: &[u8], used: usize, index: &mut [u32]) -> Result<usize, Refusal>
    requires { (used ≤ map_limit → used + index_page ≤ length index.old * index_page) × Empty index.old }
    ensures { (result ≡ opened_of m.now used) × Opens m.now used index.new result }
{
    judge_header(m, used)?;
    open_index(m, used, index)
}

// 7, of a map that was opened, by its layout.
fn examine_slots(m: &[u8], used: usize, index: &[u32], n: usize) -> Result<ExaminedMap, Refusal>
    requires { Open m.now used n index.now }
    ensures { result ≡ with_free m.now (unless (slots_judged m.now used n) (Ok n)) }
{
    if is_wide(u16_at(m, Header::VERSION)) {
        judge_slots(&OpenMap::<Wide>::new(m, used, index, n))?;
        Ok(ExaminedMap::Wide { blocks: n })
    } else {
        let free = judge_slots(&OpenMap::<Narrow>::new(m, used, index, n))?;
        Ok(ExaminedMap::Accepted { blocks: n, free })
    }
}

// The check, with a lent table, empty before, that has the index blocks, filled, afterwards where the map is accepted.
pub fn examine(m: &[u8], used: usize, index: &mut [u32]) -> Result<ExaminedMap, Refusal>
    requires { (used ≤ map_limit → used + index_page ≤ length index.old * index_page) × Empty index.old }
    ensures { (result ≡ with_free m.now (verdict m.now used))
        × ((n free : ℕ) → result ≡ Ok (Accepted n free) → Filled index_block_size index_page used index.new
        × EndsTable index_block_size index_head index_page m.now n index.new) }
{
    let n = open_map(m, used, index)?;
    examine_slots(m, used, index, n)
}

// 5, 6 and 7 of a map whose header is good, with a table of N entries for the index blocks.
fn judge_with_table<const N: usize>(m: &[u8], used: usize) -> Result<usize, Refusal>
    requires { (header_size ≤ used) × (used ≤ map_limit) × (used ≤ length m.now) × (used + index_page ≤ N * index_page) × (N ≤ 65536) }
    ensures { result ≡ after_index m.now used (walked (index_rule_of (family_of m.now) m.now) m.now used) }
{
    let mut index = [0u32; N];
    let n = open_index(m, used, &mut index)?;
    let examined = examine_slots(m, used, &index, n)?;
    Ok(examined.blocks())
}

// 5, 6 and 7 of a map whose header is good, with a table as large as the map needs: none where it has neither index blocks nor symbol blocks.
fn judge_chains(m: &[u8], used: usize) -> Result<usize, Refusal>
    requires { (header_size ≤ used) × (used ≤ map_limit) × (used ≤ length m.now) }
    ensures { result ≡ after_index m.now used (walked (index_rule_of (family_of m.now) m.now) m.now used) }
{
    if u32_at(m, Header::INDEX) == 0 && u32_at(m, Header::SYMBOLS) == 0 {
        return Ok(0);
    }
    if used <= Header::SMALL {
        judge_with_table::<{ IndexBlock::SMALL_TABLE }>(m, used)
    } else {
        judge_with_table::<{ IndexBlock::TABLE }>(m, used)
    }
}

// The check of the first `used` bytes of a buffer. Any slice, any `used`. Accepted, it answers with the number of index blocks.
#[tactic(auto, using(crate::proofs::Verdicts::header_passed), unfolding(crate::specs::Verdicts::verdict))]
pub fn check(m: &[u8], used: usize) -> Result<usize, Refusal>
    ensures { Checked m.now used result }
{
    judge_header(m, used)?; // 1 to 4
    judge_chains(m, used) // 5 to 7
}
