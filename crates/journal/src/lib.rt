// A journal of done edits: whether it is well formed for a map, the edit number looked up, the next record. Nothing here knows how a map is edited.
#![tactic(auto)]

ghost use Rattle.std.specs.Prelude.{◌≡◌, not, ◌&&◌, List, ℕ, ◌+◌, ◌*◌, ◌/◌, ◌%◌, ◌≤◌, ◌<◌, ltb, length};
ghost use Rattle.numbers.specs.Below.{any};
ghost use Rattle.records.specs.Sizes.{journal_record_size, journal_limit, block_cells};
ghost use Rattle.records.specs.Headers.{index_head};
ghost use Rattle.records.specs.Journals.{is_unused};
ghost use Rattle.chain.specs.Tables.{Empty, Ordered};
ghost use Rattle.judge.specs.Rules.{slot_at};
ghost use Rattle.journal.specs.Journals.{record_in, total, in_use, slot_used, is_full, appended, looked};
ghost use Rattle.journal.specs.Passes.{judged, Reach};
ghost use Rattle.journal.specs.Trees.{bits_of, Planted, Comes};

use records::JournalRecord;
use refusals::Refusal;
use slots::{IndexBlock, Slot};

// What a look into a journal for an edit number answers. `used` is the number of records in use. `kind` is the number as the record has it: it is compared and
// no more, and as an `EditKind` it would be decoded once more, with a refusal for a number that no good record has.
#[derive(Clone, Copy, Debug, PartialEq, Eq)]
pub enum JournalLook {
    Held { kind: u32, slot: u32 },
    New { used: usize },
}

// What the pass over the records in use answers where each is good: how many they are, and which of them holds the edit number.
#[derive(Clone, Copy)]
struct UsedRecords {
    used: usize,
    held: Option<usize>,
}

// Record i of a journal.
#[tactic(auto, unfolding(crate::specs::Journals::record_in))]
fn record_in(j: &[u8], i: usize) -> JournalRecord
    requires { journal_record_size * i + journal_record_size ≤ length j.now }
    ensures { result ≡ record_in j.now i }
{
    JournalRecord::at(j, JournalRecord::SIZE * i)
}

// Where slot s stands, by the blocks in their order.
pub fn place_of(order: &[u32], s: usize) -> usize
    requires { s < block_cells * length order.now }
    ensures { (m : List ℕ) (n : ℕ) → Ordered index_head m n order.now → s < block_cells * n → result ≡ slot_at m s }
{
    let b = IndexBlock::new(order[s / IndexBlock::SLOTS] as usize);
    b.slot(s % IndexBlock::SLOTS)
}

// The slots of a map, found by its index blocks in their order.
#[derive(Clone, Copy)]
pub struct MapSlots<'a> {
    pub map: &'a [u8],
    pub order: &'a [u32],
    pub ghost reach: { Reach map.now order.now },
}

impl MapSlots<'_> {
    // Whether slot s exists and is not free.
    fn is_used(&self, s: u32) -> bool
        ensures { result ≡ slot_used self.now.map.now (length self.now.order.now) s }
    {
        let number = s as usize;
        number < IndexBlock::SLOTS * self.order.len()
            && Slot::at(self.map, place_of(self.order, number)).len != 0
    }
}

// The spread of a number over so many trees: its whole part, over 4,294,967,296, is the tree. In the rest near numbers lie far apart.
#[tactic(auto, unfolding(crate::specs::Trees::bits_of))]
fn spread(number: u32, trees: usize) -> u64
    requires { (0 < trees) × (trees ≤ 65536) }
    ensures { result ≡ bits_of trees number 0 }
{
    number as u64 * 2654435769 % 4294967296 * (trees as u64)
}

// The link that a number comes to: that of the record which has it, or one that leads to none. It goes down its tree from the root, at each record to the
// first or the second link below by the next bit of its spread: how deep, no range tells.
fn link_for(j: &[u8], links: &[u16], number: u32) -> usize
    requires { Planted j.now links.now }
    ensures { Comes (length links.now / 2) j.now links.now number result }
{
    let trees = links.len() / 2;
    let mut bits = spread(number, trees);
    let mut at = (bits / 4294967296) as usize;
    while let Some(k) = (links[at] as usize).checked_sub(1) {
        if record_in(j, k).number == number {
            return at;
        }
        bits = bits % 4294967296 * 2;
        at = trees + 2 * k + (bits / 4294967296) as usize;
    }
    at
}

// The records in use, judged in one pass. They are put in trees, by their numbers: the first half of the links are the roots, then come two for each record.
// A link is 0, or counts records from 1: as an Option of a number it would take twice the room. The links are lent, all 0.
fn judge_records(
    j: &[u8],
    slots: MapSlots,
    e: u32,
    links: &mut [u16],
) -> Result<UsedRecords, Refusal>
    requires { (length j.now ≤ journal_limit) × Empty links.old
        × (2 ≤ length links.old) × (length links.old ≤ 131072) × (4 * total j.now ≤ length links.old) }
    ensures { result ≡ judged j.now slots.entry.map.now (length slots.entry.order.now) e }
{
    let mut held = None;
    let all = j.len() / JournalRecord::SIZE;
    for i in 0..all {
        let r = record_in(j, i);
        if r.is_unused() {
            return Ok(UsedRecords { used: i, held });
        }
        if !r.shape_good() || !slots.is_used(r.slot) {
            return Err(Refusal::BadJournal);
        }
        let at = link_for(j, links, r.number);
        let link = &mut links[at];
        if *link != 0 {
            return Err(Refusal::BadJournal);
        }
        *link = (i + 1) as u16;
        if r.number == e {
            held = Some(i);
        }
    }
    Ok(UsedRecords { used: all, held })
}

// The links that a journal needs with room for at most 64 records, for at most 512, and for as many as a journal can have: two trees and two links for each.
const FEW: usize = 256;

const SOME: usize = 2048;

const MOST: usize = 16384;

// The records in use, judged with so many links. They stand in this function alone: so a journal with few records fills no more than its own.
fn judge_with_links<const LINKS: usize>(
    j: &[u8],
    slots: MapSlots,
    e: u32,
) -> Result<UsedRecords, Refusal>
    requires { (length j.now ≤ journal_limit) × (2 ≤ LINKS) × (LINKS ≤ 131072) × (4 * total j.now ≤ LINKS) }
    ensures { result ≡ judged j.now slots.entry.map.now (length slots.entry.order.now) e }
{
    let mut links = [0u16; LINKS];
    judge_records(j, slots, e, &mut links)
}

// The records in use, judged with links as many as the journal needs.
fn judge_journal(j: &[u8], slots: MapSlots, e: u32) -> Result<UsedRecords, Refusal>
    requires { (length j.now ≤ journal_limit) }
    ensures { result ≡ judged j.now slots.entry.map.now (length slots.entry.order.now) e }
{
    let needed = 4 * (j.len() / JournalRecord::SIZE);
    if needed <= FEW {
        judge_with_links::<FEW>(j, slots, e)
    } else if needed <= SOME {
        judge_with_links::<SOME>(j, slots, e)
    } else {
        judge_with_links::<MOST>(j, slots, e)
    }
}

// Whether the records from k on are all zero.
fn rest_unused(j: &[u8], k: usize) -> bool
    requires { (length j.now % journal_record_size ≡ 0) × (k ≤ total j.now) }
    ensures { result ≡ not (any (λ (i : ℕ). not (ltb i k) && not (is_unused (record_in j.now i))) (total j.now)) }
{
    numbers::all_zero(j, JournalRecord::SIZE * k)
}

// A look into the journal for an edit number. A malformed journal is refused, and so is edit number 0.
pub fn look_up(j: &[u8], slots: MapSlots, e: u32) -> Result<JournalLook, Refusal>
    ensures { result ≡ looked j.now slots.entry.map.now (length slots.entry.order.now) e }
{
    if e == 0 || j.len() > JournalRecord::LIMIT || j.len() % JournalRecord::SIZE != 0 {
        return Err(Refusal::BadJournal);
    }
    let UsedRecords { used, held } = judge_journal(j, slots, e)?;
    if !rest_unused(j, used) {
        return Err(Refusal::BadJournal);
    }
    Ok(match held {
        Some(k) => {
            let r = record_in(j, k);
            JournalLook::Held {
                kind: r.kind,
                slot: r.slot,
            }
        }
        None => JournalLook::New { used },
    })
}

// Whether no record is unused, of which k are in use.
#[tactic(auto, unfolding(crate::specs::Journals::is_full))]
pub fn is_full(j: &[u8], k: usize) -> bool
    requires { k ≡ in_use j.now }
    ensures { result ≡ is_full j.now }
{
    k == j.len() / JournalRecord::SIZE
}

// A record at the first unused place. The part of the journal that starts there is lent on.
pub fn append(j: &mut [u8], k: usize, r: JournalRecord)
    requires { (k ≡ in_use j.old) × (journal_record_size * k + journal_record_size ≤ length j.old) }
    ensures { j.new ≡ appended j.old r }
{
    r.put(&mut j[JournalRecord::SIZE * k..]);
}
