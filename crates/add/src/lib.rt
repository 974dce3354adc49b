// Add: an object at the old end, its slot in the first free one or in a new block, and a record.
#![tactic(auto)]

ghost use Rattle.std.specs.Prelude.{◌≡◌, true, List, ℕ, ◌+◌, ◌*◌, ◌≤◌, ◌<◌, length};
ghost use Rattle.std.proofs.lemmas.List.Edits.{sets};
ghost use Rattle.numbers.specs.Bytes.{bytes_of};
ghost use Rattle.records.specs.Sizes.{header_size, index_block_size, index_page, slot_size, map_limit, block_cells, link_size};
ghost use Rattle.records.specs.Headers.{index_head};
ghost use Rattle.slots.specs.Slots.{slot_of, slot_bytes};
ghost use Rattle.chain.specs.Chains.{place};
ghost use Rattle.chain.specs.Tables.{Empty, Ordered};
ghost use Rattle.judge.specs.Judging.{version_of};
ghost use Rattle.accept.specs.Verdicts.{Editable};
ghost use Rattle.journal.specs.Journals.{in_use};
ghost use Rattle.accept.specs.Slots.{free_slot};
ghost use Rattle.add.specs.Objects.{pair_limit, offered_good, slot_for, block_for, is_object};
ghost use Rattle.edit.specs.Edits.{Edited};
ghost use Rattle.edit.specs.Lent.{Roomy};
ghost use Rattle.add.specs.Adds.{new_length, added_map, repeat_add, fresh_add, added, Added};

use accept::examine;
use edit::{EditAnswer, EditStart, begin};
use journal::{append, is_full, place_of};
use numbers::{clear, copy_in, put_u32_at, same, u16_at};
use records::{EditKind, Header, JournalRecord, LINK};
use refusals::Refusal;
use slots::{IndexBlock, ObjectHeader, Slot, bytes_in, len_of, type_good};
use windows::least_rectangle;

// Whether an offered object is well formed for a version.
#[tactic(auto, using(std::proofs::lemmas::Bool::Decides::nat_tests), unfolding(crate::specs::Objects::offered_good))]
fn offered_good(version: u16, o: &[u8]) -> bool
    ensures { result ≡ offered_good version o.now }
{
    if o.len() < ObjectHeader::SIZE + ObjectHeader::PAIR {
        return false;
    }
    let h = ObjectHeader::of(o);
    let pairs = h.items as usize + h.texts as usize;
    o.len() == ObjectHeader::SIZE + ObjectHeader::PAIR * pairs
        && h.items >= 1
        && type_good(h.kind)
        && h.sym != 0
        && pairs <= pair_limit(version)
}

// How many pairs an offered object may have.
#[tactic(auto, using(std::proofs::lemmas::Bool::Decides::nat_tests))]
fn pair_limit(version: u16) -> usize
    ensures { result ≡ pair_limit version }
{
    if version == 8 {
        ObjectHeader::MOST_PAIRS_8 as usize
    } else {
        ObjectHeader::MOST_PAIRS
    }
}

// The slot of a well-formed object that is stored at a place.
fn slot_for(version: u16, o: &[u8], at: u32) -> Slot
    requires { offered_good version o.now ≡ true }
    ensures { result ≡ slot_for version o.now at }
{
    let h = ObjectHeader::of(o);
    let items = h.items as usize;
    let pairs = items + h.texts as usize;
    let cover = least_rectangle(o, items);
    Slot {
        left: cover.left,
        bottom: cover.bottom,
        right: cover.right,
        top: cover.top,
        position: at,
        len: len_of(version, pairs) as u16,
        sym: h.sym,
    }
}

// Whether the object of the slot at a place is the offered one.
fn is_object(m: &[u8], used: usize, at: usize, o: &[u8]) -> bool
    requires { (header_size ≤ used) × (used ≤ map_limit) × (used ≤ length m.now) × (at + slot_size ≤ length m.now) }
    ensures { result ≡ is_object m.now used (slot_of m.now at) o.now }
{
    let t = Slot::at(m, at);
    let start = t.position as usize;
    let end = start + bytes_in(u16_at(m, Header::VERSION), t.len);
    if start < Header::SIZE || used < end {
        return false;
    }
    same(&m[start..end], o)
}

// An add whose number is held.
fn repeat_add(
    m: &[u8],
    used: usize,
    order: &[u32],
    n: usize,
    o: &[u8],
    kind: u32,
    slot: u32,
) -> Result<EditAnswer, Refusal>
    requires { Editable m.now used n × Ordered index_head m.now n order.now × (n ≤ length order.now) × (slot < block_cells * n) }
    ensures { (j : List ℕ) → result ≡ (repeat_add m.now used j o.now kind slot).answer }
{
    if kind != u32::from(EditKind::Add) || !is_object(m, used, place_of(order, slot as usize), o) {
        return Err(Refusal::NumberHeld);
    }
    Ok(EditAnswer::Before {
        slot,
        length: used as u32,
    })
}

// The object at the old end, and its slot at a place: the part of the map that starts at the slot is lent on.
fn write_in_slot(map: &mut [u8], used: usize, o: &[u8], at: usize, t: Slot)
    requires { (used + length o.now ≤ length map.old) × (at + slot_size ≤ length map.old) }
    ensures { map.new ≡ sets (sets map.old used o.now) at (slot_bytes t) }
{
    copy_in(&mut map[used..], o);
    t.put(&mut map[at..]);
}

// A block, zeroed but for slot 0, over a part of its size.
fn put_block(part: &mut [u8], t: Slot)
    requires { length part.old ≡ index_block_size }
    ensures { part.new ≡ sets part.old 0 (block_for t) }
{
    let size = part.len();
    clear(part, size);
    t.put(&mut part[LINK..]);
}

// The object at the old end, a new block with its slot behind it, and the link that points to the block.
fn write_in_block(map: &mut [u8], used: usize, o: &[u8], link: usize, t: Slot)
    requires { (used + length o.now + index_block_size ≤ length map.old) × (used + length o.now + index_block_size ≤ map_limit)
        × (link + link_size ≤ length map.old) }
    ensures { map.new
        ≡ sets (sets (sets map.old used o.now) (used + length o.now) (block_for t)) link (bytes_of link_size (used + length o.now)) }
{
    let block = used + o.len();
    copy_in(&mut map[used..], o);
    put_block(&mut map[block..block + IndexBlock::SIZE], t);
    put_u32_at(map, link, block as u32);
}

// Where the link stands that a new block is to be linked by: the chain's last, or the header's.
fn last_link(order: &[u32], n: usize) -> usize
    requires { n ≤ length order.now }
    ensures { (m : List ℕ) → Ordered index_head m n order.now → result ≡ place index_head m n }
{
    if n == 0 {
        Header::INDEX
    } else {
        order[n - 1] as usize
    }
}

// The map after an add of a well-formed object to the first free slot, or to a new block.
fn write_added(map: &mut [u8], used: usize, order: &[u32], n: usize, s: usize, o: &[u8])
    requires { Editable map.old used n × Ordered index_head map.old n order.now × (n ≤ length order.now) × (s ≡ free_slot map.old n)
        × (offered_good (version_of map.old) o.now ≡ true) × (new_length map.old used n o.now ≤ map_limit)
        × (new_length map.old used n o.now ≤ length map.old) }
    ensures { map.new ≡ added_map map.old used n o.now }
{
    let t = slot_for(u16_at(map, Header::VERSION), o, used as u32);
    if s < IndexBlock::SLOTS * n {
        write_in_slot(map, used, o, place_of(order, s), t);
    } else {
        write_in_block(map, used, o, last_link(order, n), t);
    }
}

// The length of the map after an add.
fn new_length(used: usize, n: usize, s: usize, o: &[u8]) -> usize
    requires { (used ≤ map_limit) × (length o.now ≤ 4294967296) × (n ≤ map_limit) }
    ensures { (m : List ℕ) → s ≡ free_slot m n → result ≡ new_length m used n o.now }
{
    let end = used + o.len();
    if s < IndexBlock::SLOTS * n {
        end
    } else {
        end + IndexBlock::SIZE
    }
}

// An add under a new number, in a map whose first free slot is s.
fn add_new(
    map: &mut [u8],
    used: usize,
    journal: &mut [u8],
    edit: u32,
    o: &[u8],
    order: &[u32],
    n: usize,
    records: usize,
    s: usize,
) -> Result<EditAnswer, Refusal>
    requires { Editable map.old used n × Ordered index_head map.old n order.now × (n ≤ length order.now)
        × (records ≡ in_use journal.old) × (s ≡ free_slot map.old n) }
    ensures { Edited (fresh_add map.old used journal.old edit o.now n) result map.new journal.new }
{
    if !offered_good(u16_at(map, Header::VERSION), o) {
        return Err(Refusal::BadObject);
    }
    let length = new_length(used, n, s, o);
    if Header::LIMIT < length || map.len() < length {
        return Err(Refusal::NoRoom);
    }
    let full = is_full(journal, records);
    if full {
        return Err(Refusal::JournalFull);
    }
    write_added(map, used, order, n, s, o);
    let record = JournalRecord::new(edit, u32::from(EditKind::Add), s as u32);
    append(journal, records, record);
    Ok(EditAnswer::Done {
        slot: s as u32,
        length: length as u32,
    })
}

// An add, with lent tables, the index blocks' empty before.
fn add_with(
    map: &mut [u8],
    used: usize,
    journal: &mut [u8],
    edit: u32,
    o: &[u8],
    index: &mut [u32],
    order: &mut [u32],
) -> Result<EditAnswer, Refusal>
    requires { (used ≤ map_limit → Roomy used index.old order.old) × Empty index.old }
    ensures { Edited (added map.old used journal.old edit o.now) result map.new journal.new }
{
    let v = examine(map, used, index);
    let start = begin(map, used, journal, edit, v, order)?;
    match start {
        EditStart::Held { blocks, kind, slot } => repeat_add(
            map, used, order, blocks, o, kind, slot,
        ),
        EditStart::New {
            blocks,
            records,
            free,
        } => add_new(map, used, journal, edit, o, order, blocks, records, free),
    }
}

// An add, with tables of so many entries. They stand in this function alone: so the compiler gives each size its own room, and no more than the map needs is
// taken.
fn add_with_tables<const T: usize, const B: usize>(
    map: &mut [u8],
    used: usize,
    journal: &mut [u8],
    edit: u32,
    o: &[u8],
) -> Result<EditAnswer, Refusal>
    requires { (used ≤ map_limit → (used + index_page ≤ T * index_page) × (used < header_size + index_block_size * (B + 1)))
        × (T ≤ 65536) × (B ≤ 65536) }
    ensures { Edited (added map.old used journal.old edit o.now) result map.new journal.new }
{
    let mut index = [0u32; T];
    let mut order = [0u32; B];
    add_with(map, used, journal, edit, o, &mut index, &mut order)
}

// Add: the object is stored at the old end and takes the first free slot, or one in a new block. Any buffer, any `used`, any journal, any edit number, any
// bytes as object. The tables are as large as the map needs.
pub fn add(
    map: &mut [u8],
    used: usize,
    journal: &mut [u8],
    edit: u32,
    o: &[u8],
) -> Result<EditAnswer, Refusal>
    ensures { Added map.old used journal.old edit o.now result map.new journal.new }
{
    if used <= Header::SMALL {
        add_with_tables::<{ IndexBlock::SMALL_TABLE }, { IndexBlock::SMALL_MOST }>(
            map, used, journal, edit, o,
        )
    } else {
        add_with_tables::<{ IndexBlock::TABLE }, { IndexBlock::MOST }>(map, used, journal, edit, o)
    }
}
