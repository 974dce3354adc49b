// Remove and reinstate: the Sym of one slot, and a record.
#![tactic(auto)]

ghost use Rattle.std.specs.Prelude.{◌≡◌, true, List, ℕ, ◌+◌, ◌*◌, ◌≤◌, ◌<◌, length};
ghost use Rattle.std.proofs.lemmas.List.Edits.{sets};
ghost use Rattle.numbers.specs.Bytes.{bytes_of};
ghost use Rattle.records.specs.Sizes.{header_size, index_block_size, index_page, slot_size, map_limit};
ghost use Rattle.records.specs.Kinds.{code_of};
ghost use Rattle.chain.specs.Chains.{place};
ghost use Rattle.chain.specs.Tables.{Empty, ends_meet};
ghost use Rattle.judge.specs.Rules.{slot_at};
ghost use Rattle.accept.specs.Verdicts.{Editable};
ghost use Rattle.journal.specs.Journals.{in_use};
ghost use Rattle.edit.specs.Edits.{Edited};
ghost use Rattle.edit.specs.Lent.{Roomy, Known};
ghost use Rattle.change.specs.Changes.{repeat_change, fresh_change, changed, Removed, Reinstated};
ghost use Rattle.change.specs.NewSyms.{sym_to_reinstate, new_sym_for};
ghost use Rattle.slots.specs.Slots.{sym_at};

use accept::examine;
use chain::IndexedMap;
use edit::{EditAnswer, EditStart, begin};
use journal::{append, is_full, place_of};
use judge::{Narrow, slot_good};
use numbers::{put_u16_at, u16_at};
use records::{EditKind, Header, JournalRecord};
use refusals::Refusal;
use slots::{IndexBlock, Slot, State, read_slot};

// The Sym that reinstates an erased slot, or none where it may not be reinstated.
#[tactic(auto, using(std::proofs::lemmas::Bool::Decides::nat_tests), unfolding(crate::specs::NewSyms::sym_to_reinstate))]
fn sym_to_reinstate(map: &IndexedMap<Narrow>, t: Slot) -> Option<u16>
    requires { (header_size ≤ map.now.used) × (t.len ≡ 0 → ⊥) }
    ensures { result ≡ sym_to_reinstate (ends_meet index_block_size map.now.index.now) map.now.m.now map.now.used t }
{
    let at = t.position as usize;
    if map.used < at + 2 {
        return None;
    }
    let sym = u16_at(map.m, at);
    let revived = Slot { sym, ..t };
    if sym != 0 && slot_good(map, u16_at(map.m, Header::VERSION), revived) {
        Some(sym)
    } else {
        None
    }
}

// The Sym that an edit of kind 2 or 3 writes to slot `at`, or none where it is not allowed.
fn sym_for(
    m: &[u8],
    used: usize,
    index: &[u32],
    order: &[u32],
    n: usize,
    kind: EditKind,
    at: u32,
) -> Option<u16>
    requires { Editable m.now used n × Known m.now used n index.now order.now × (used + index_page ≤ length index.now * index_page)
        × (n ≤ length order.now) }
    ensures { result ≡ new_sym_for (code_of kind) m.now used n at }
{
    let s = at as usize;
    if IndexBlock::SLOTS * n <= s {
        return None;
    }
    let found = read_slot(m, place_of(order, s));
    if kind == EditKind::Remove {
        return (found.state == State::Live).then_some(0);
    }
    if found.state != State::Erased {
        return None;
    }
    sym_to_reinstate(&IndexedMap::new(m, used, index), found.slot)
}

// A removal or reinstatement whose number is held.
#[tactic(auto, using(std::proofs::lemmas::Bool::Decides::nat_tests), unfolding(crate::specs::Changes::repeat_change))]
fn repeat_change(
    used: usize,
    kind: EditKind,
    at: u32,
    held: u32,
    slot: u32,
) -> Result<EditAnswer, Refusal>
    requires { used ≤ map_limit }
    ensures { (m j : List ℕ) → result ≡ (repeat_change m used j (code_of kind) at held slot).answer }
{
    if held != u32::from(kind) || slot != at {
        return Err(Refusal::NumberHeld);
    }
    Ok(EditAnswer::Before {
        slot: at,
        length: used as u32,
    })
}

// The Sym of the slot at a place.
fn put_sym(map: &mut [u8], place: usize, sym: u16)
    requires { place + slot_size ≤ length map.old }
    ensures { map.new ≡ sets map.old (place + sym_at) (bytes_of 2 sym) }
{
    put_u16_at(map, place + Slot::SYM, sym);
}

// A removal or reinstatement under a new number: the Sym of slot `at`, whose place is lent, and the record.
fn change_slot(
    map: &mut [u8],
    used: usize,
    journal: &mut [u8],
    edit: u32,
    kind: EditKind,
    at: u32,
    place: usize,
    records: usize,
    sym: u16,
) -> Result<EditAnswer, Refusal>
    requires { (used ≤ map_limit) × (place ≡ slot_at map.old at) × (place + slot_size ≤ length map.old) × (records ≡ in_use journal.old) }
    ensures { Edited (fresh_change map.old used journal.old edit (code_of kind) at true sym) result map.new journal.new }
{
    if is_full(journal, records) {
        return Err(Refusal::JournalFull);
    }
    put_sym(map, place, sym);
    let record = JournalRecord::new(edit, u32::from(kind), at);
    append(journal, records, record);
    Ok(EditAnswer::Done {
        slot: at,
        length: used as u32,
    })
}

// An edit of kind 2 or 3, with lent tables, the index blocks' empty before.
fn change_with(
    map: &mut [u8],
    used: usize,
    journal: &mut [u8],
    edit: u32,
    kind: EditKind,
    at: u32,
    index: &mut [u32],
    order: &mut [u32],
) -> Result<EditAnswer, Refusal>
    requires { (used ≤ map_limit → Roomy used index.old order.old) × Empty index.old }
    ensures { Edited (changed map.old used journal.old edit (code_of kind) at) result map.new journal.new }
{
    let v = examine(map, used, index);
    let start = begin(map, used, journal, edit, v, order)?;
    match start {
        EditStart::Held {
            kind: held,
            slot,
            ..
        } => repeat_change(used, kind, at, held, slot),
        EditStart::New {
            blocks,
            records,
            ..
        } => {
            let Some(sym) = sym_for(map, used, index, order, blocks, kind, at) else {
                return Err(Refusal::WrongState);
            };
            let place = place_of(order, at as usize);
            change_slot(map, used, journal, edit, kind, at, place, records, sym)
        }
    }
}

// An edit of kind 2 or 3, with tables of so many entries. They stand in this function alone: so the compiler gives each size its own room, and no more than the
// map needs is taken.
fn change_with_tables<const T: usize, const B: usize>(
    map: &mut [u8],
    used: usize,
    journal: &mut [u8],
    edit: u32,
    kind: EditKind,
    at: u32,
) -> Result<EditAnswer, Refusal>
    requires { (used ≤ map_limit → (used + index_page ≤ T * index_page) × (used < header_size + index_block_size * (B + 1)))
        × (T ≤ 65536) × (B ≤ 65536) }
    ensures { Edited (changed map.old used journal.old edit (code_of kind) at) result map.new journal.new }
{
    let mut index = [0u32; T];
    let mut order = [0u32; B];
    change_with(map, used, journal, edit, kind, at, &mut index, &mut order)
}

// An edit of kind 2 or 3, with tables as large as the map needs.
fn change(
    map: &mut [u8],
    used: usize,
    journal: &mut [u8],
    edit: u32,
    kind: EditKind,
    at: u32,
) -> Result<EditAnswer, Refusal>
    ensures { Edited (changed map.old used journal.old edit (code_of kind) at) result map.new journal.new }
{
    if used <= Header::SMALL {
        change_with_tables::<{ IndexBlock::SMALL_TABLE }, { IndexBlock::SMALL_MOST }>(
            map, used, journal, edit, kind, at,
        )
    } else {
        change_with_tables::<{ IndexBlock::TABLE }, { IndexBlock::MOST }>(
            map, used, journal, edit, kind, at,
        )
    }
}

// Remove: a live slot's Sym becomes 0. Any buffer, any `used`, any journal, any edit number, any slot.
pub fn remove(
    map: &mut [u8],
    used: usize,
    journal: &mut [u8],
    edit: u32,
    at: u32,
) -> Result<EditAnswer, Refusal>
    ensures { Removed map.old used journal.old edit at result map.new journal.new }
{
    change(map, used, journal, edit, EditKind::Remove, at)
}

// Reinstate: an erased slot gets its object's Sym. Any buffer, any `used`, any journal, any edit number, any slot.
pub fn reinstate(
    map: &mut [u8],
    used: usize,
    journal: &mut [u8],
    edit: u32,
    at: u32,
) -> Result<EditAnswer, Refusal>
    ensures { Reinstated map.old used journal.old edit at result map.new journal.new }
{
    change(map, used, journal, edit, EditKind::Reinstate, at)
}
