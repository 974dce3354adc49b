// Chains of blocks in a map that is lent as bytes: the walk, the table of the blocks, and the cells. Nothing here knows what a cell means.
#![tactic(auto)]

ghost use Rattle.std.specs.Prelude.{◌≡◌, ℕ, ◌+◌, ◌-◌, ◌*◌, ◌≤◌, ◌<◌, length, get_or};
ghost use Rattle.chain.specs.Chains.{block, walked, taken};
ghost use Rattle.chain.specs.Tables.{Empty, Placed, Table, Carried, Filled, entry_meets, table_meets, ends_meet, keeps_off, kind_rule, good_block, Bounds, Ready, Ordered};
ghost use Rattle.records.specs.Sizes.{link_size, map_limit};
ghost use Rattle.numbers.specs.Ranges.{share};

mod indexed;

pub use indexed::{BlockSizes, IndexedMap};
use numbers::u32_at;
use records::{Header, Part};

// Why a walk stops before the chain ends: the place of the first link at fault, and the number of blocks before it.
#[derive(Clone, Copy, Debug, PartialEq, Eq)]
pub struct LinkFault {
    pub place: u32,
    pub taken: usize,
}

// A kind of chain: where its first link stands, the bytes of a block, and of a page of its table; and what its blocks keep off: two parts of the map, and the
// blocks of another table, filled, of `other_size` bytes each.
#[derive(Clone, Copy)]
pub struct Kind {
    pub head: usize,
    pub size: usize,
    pub page: usize,
    pub first: Part,
    pub second: Part,
    pub other_size: usize,
    pub other_page: usize,
}

// Whether entry b shares a byte with the range.
#[tactic(auto, unfolding(crate::specs::Tables::entry_meets))]
fn entry_meets(t: &[u32], size: usize, b: usize, start: usize, len: usize) -> bool
    requires { (b < length t.now) × (size ≤ 65536) × (start + len ≤ map_limit) }
    ensures { result ≡ entry_meets size t.now start len b }
{
    let e = t[b] as usize;
    e != 0 && numbers::ranges_share(e, size, start, len)
}

// Whether some block taken so far shares a byte with the range: only the pages in which such a block can start are looked at.
fn meets_taken(t: &[u32], page: usize, size: usize, start: usize, len: usize) -> bool
    requires { (0 < page) × (size ≤ 65536) × (0 < len) × (start + len ≤ map_limit) × (start + len + page ≤ length t.now * page) × Placed page t.now }
    ensures { result ≡ table_meets size t.now start len }
{
    let last = (start + len - 1) / page + 1;
    let first = if size <= start {
        (start - size) / page + 1
    } else {
        0
    };
    (first..last + 1).any(|b| entry_meets(t, size, b, start, len))
}

// Fills the first k entries of a table of blocks of `size` bytes: each gets the end of the last block that stands there or before it.
pub fn fill(t: &mut [u32], k: usize, size: u32)
    requires { (k ≤ length t.old) × ((b : ℕ) → get_or t.old b 0 + size < 4294967296) }
    ensures { Carried size k t.old t.new }
{
    let mut last = 0;
    for entry in t[..k].iter_mut() {
        if *entry != 0 {
            last = *entry + size;
        }
        *entry = last;
    }
}

// Whether some block of a filled table shares a byte with the range, whatever its length: of the blocks that start before the range's end the last one also
// ends last. The entry behind the range's last page tells it, unless that block starts behind the range; then the entry before does.
pub fn meets_block(t: &[u32], page: usize, size: usize, start: usize, len: usize) -> bool
    requires { (0 < page) × (0 < size) × (size ≤ 65536) × (0 < len) × (start + len ≤ map_limit) × (start + len + page ≤ length t.now * page)
        × Filled size page (start + len) t.now }
    ensures { result ≡ ends_meet size t.now start len }
{
    let end = start + len;
    let b = (end - 1) / page;
    let here = t[b + 1] as usize;
    start < here && (here < end + size || start < t[b] as usize)
}

// Whether a part of the map shares a byte with the range.
fn part_meets(part: Part, start: usize, len: usize) -> bool
    requires { start + len ≤ map_limit }
    ensures { result ≡ share part.at part.size start len }
{
    numbers::ranges_share(part.at as usize, part.size as usize, start, len)
}

// Whether a block at p would meet what its kind keeps off.
#[tactic(auto, unfolding(crate::specs::Tables::keeps_off))]
fn keeps_off(kind: Kind, other: &[u32], p: usize) -> bool
    requires { Bounds kind (p + kind.size) other.now }
    ensures { result ≡ keeps_off kind other.now p }
{
    let size = kind.size;
    part_meets(kind.first, p, size)
        || part_meets(kind.second, p, size)
        || meets_block(other, kind.other_page, kind.other_size, p, size)
}

// Whether p can be the next block of a chain, by the table of its blocks so far.
#[tactic(auto, unfolding(crate::specs::Tables::good_block, numbers::specs::Ranges::within))]
fn can_be_block(kind: Kind, other: &[u32], t: &[u32], used: usize, p: usize) -> bool
    requires { Ready kind used other.now t.now × Placed kind.page t.now × (p < 4294967296) }
    ensures { result ≡ good_block (kind_rule kind other.now) t.now used p }
{
    let size = kind.size;
    Header::SIZE <= p
        && p + size <= used
        && !keeps_off(kind, other, p)
        && !meets_taken(t, kind.page, size, p, size)
}

// The walk over a chain: the number of its blocks. The table is empty before, and has the blocks that were taken after, each at its own page.
pub fn walk_chain(
    m: &[u8],
    used: usize,
    kind: Kind,
    other: &[u32],
    t: &mut [u32],
) -> Result<usize, LinkFault>
    requires { (used ≤ length m.now) × Ready kind used other.now t.old × Empty t.old }
    ensures { (result ≡ walked (kind_rule kind other.now) m.now used) × Placed kind.page t.new
        × Table kind.head kind.page m.now (taken (kind_rule kind other.now) m.now used) t.new }
{
    let page = kind.page;
    let mut n = 0;
    let mut at = kind.head;
    // It goes along links, and no number of turns is known: a `for n in 0..` would want an answer behind its end.
    loop {
        let p = u32_at(m, at) as usize;
        if p == 0 {
            return Ok(n);
        }
        if !can_be_block(kind, other, t, used, p) {
            return Err(LinkFault {
                place: at as u32,
                taken: n,
            });
        }
        t[p / page + 1] = p as u32;
        at = p;
        n += 1;
    }
}

// The blocks of a chain in their order, so that a cell is found in one step.
pub fn order_blocks(m: &[u8], head: usize, n: usize, order: &mut [u32])
    requires { (head + link_size ≤ length m.now) × ((k : ℕ) → k < n → block head m.now k + link_size ≤ length m.now) × (n ≤ length order.old) }
    ensures { Ordered head m.now n order.new }
{
    let mut at = head;
    for block in order[..n].iter_mut() {
        *block = u32_at(m, at);
        at = *block as usize;
    }
}
