// The look at the slots in one pass: each is judged, and has a bit that says whether the search lists it.
#![tactic(auto)]

mod words;

ghost use Rattle.std.specs.Prelude.{◌≡◌, Ok, ℕ, ◌+◌, ◌*◌, ◌≤◌, ◌<◌, length};
ghost use Rattle.numbers.specs.Below.{sel};
ghost use Rattle.records.specs.Sizes.{block_cells};
ghost use Rattle.chain.specs.Cells.{cell_in};
ghost use Rattle.judge.specs.Judging.{version_of};
ghost use Rattle.judge.specs.Rules.{family_for};
ghost use Rattle.refusals.specs.declared.Refusal.TheVariants.{BadSlot};
ghost use Rattle.refusals.specs.Refusals.{unless};
ghost use Rattle.accept.specs.Opens.{slot_fault_for, Open};
ghost use Rattle.accept.specs.Verdicts.{cells_judged, slots_judged_of, slots_judged};
ghost use Rattle.look.specs.Found.{live_in_of, slots_for, found};
ghost use Rattle.look.specs.Looks.{block_words, live_cell, MarkedBy, Marked};

use accept::OpenMap;
use bits::WORD;
use chain::IndexedMap;
use judge::{Layout, Narrow, Wide};
use numbers::{u16_at, u32_at};
use records::{Header, LINK, is_wide};
use refusals::Refusal;
use windows::Window;
use words::look_in_word;

// The bits of an index block's slots are so many words.
pub const BLOCK_WORDS: usize = 4;

// The 256 slots of an index block: judged, and looked at, up to the first at fault. Where none is: how many are found. The slots' bits go to the block's words.
fn look_in_block<L: Layout>(
    map: &IndexedMap<L>,
    version: u16,
    block: usize,
    w: Window,
    words: &mut [u64],
) -> Result<usize, Refusal>
    requires { (version ≡ version_of map.now.m.now) × (block + (family_for L.wide).block ≤ map.now.used) × (length words.old ≡ block_words) }
    ensures { (result ≡ unless
        (cells_judged BadSlot
        (λ j. slot_fault_for L.wide map.now.m.now map.now.used map.now.index.now (cell_in block (family_for L.wide).slot j))
        (cell_in block (family_for L.wide).slot) block_cells)
        (Ok (length (sel (live_cell (family_for L.wide) map.now.m.now w block) block_cells))))
        × ((c : ℕ) → result ≡ Ok c → MarkedBy (live_cell (family_for L.wide) map.now.m.now w block) words.new block_words) }
{
    let mut found = 0;
    for (q, word) in words.iter_mut().enumerate() {
        let from = block + LINK + WORD * L::SLOT * q;
        let bits = look_in_word(map, version, from, w)?;
        *word = bits;
        found += bits.count_ones() as usize;
    }
    Ok(found)
}

// The slots of an open map's n index blocks, up to the first at fault. Where none is: how many are found.
fn look_in_layout<L: Layout>(
    opened: &OpenMap<L>,
    w: Window,
    words: &mut [u64],
) -> Result<usize, Refusal>
    requires { block_words * opened.now.blocks ≤ length words.old }
    ensures { (result
        ≡ unless (slots_judged_of (family_for L.wide) opened.now.map.m.now opened.now.map.used opened.now.blocks)
        (Ok (length (slots_for (live_in_of (family_for L.wide) opened.now.map.m.now w) opened.now.blocks))))
        × ((c : ℕ) → result ≡ Ok c → MarkedBy (live_in_of (family_for L.wide) opened.now.map.m.now w) words.new (block_words * opened.now.blocks)) }
{
    let m = opened.map.m;
    let n = opened.blocks;
    let version = u16_at(m, Header::VERSION);
    let mut at = Header::INDEX;
    let mut count = 0;
    for k in 0..n {
        at = u32_at(m, at) as usize;
        let first = BLOCK_WORDS * k;
        count += look_in_block(
            &opened.map,
            version,
            at,
            w,
            &mut words[first..first + BLOCK_WORDS],
        )?;
    }
    Ok(count)
}

// The same, in the layout of the map.
pub fn look_in_slots(
    m: &[u8],
    used: usize,
    index: &[u32],
    n: usize,
    w: Window,
    words: &mut [u64],
) -> Result<usize, Refusal>
    requires { Open m.now used n index.now × (block_words * n ≤ length words.old) }
    ensures { (result ≡ unless (slots_judged m.now used n) (Ok (length (found m.now n w))))
        × ((c : ℕ) → result ≡ Ok c → Marked m.now w words.new (block_words * n)) }
{
    if is_wide(u16_at(m, Header::VERSION)) {
        look_in_layout(&OpenMap::<Wide>::new(m, used, index, n), w, words)
    } else {
        look_in_layout(&OpenMap::<Narrow>::new(m, used, index, n), w, words)
    }
}
