// What the three edits of a map under its journal have in common: their answers, and how they start. Each decides first, on the map and the journal as they
// are, and writes after.
#![tactic(auto)]

ghost use Rattle.std.specs.Prelude.{◌≡◌, ℕ, ◌+◌, ◌*◌, ◌≤◌, ◌<◌, length};
ghost use Rattle.records.specs.Sizes.{header_size, index_block_size, map_limit};
ghost use Rattle.records.specs.Headers.{index_head};
ghost use Rattle.chain.specs.Chains.{place};
ghost use Rattle.chain.specs.Tables.{Ordered};
ghost use Rattle.accept.specs.Opens.{with_free};
ghost use Rattle.accept.specs.Verdicts.{verdict, Editable};
ghost use Rattle.edit.specs.Edits.{before_of, slot_no, length_of, start_of};

use accept::ExaminedMap;
use chain::order_blocks;
use journal::{JournalLook, MapSlots, look_up};
use records::Header;
use refusals::Refusal;

// What an edit answers where it isn't refused: done, or done before, with the slot and the map's length.
#[derive(Clone, Copy, Debug, PartialEq, Eq)]
pub enum EditAnswer {
    Done { slot: u32, length: u32 },
    Before { slot: u32, length: u32 },
}

// What C is told of an answer, which has no Result there: 1 for "done before", else 0.
pub fn before(answer: &Result<EditAnswer, Refusal>) -> u32
    ensures { result ≡ before_of answer.now }
{
    match answer {
        Ok(EditAnswer::Before { .. }) => 1,
        _ => 0,
    }
}

// The slot of a done edit; 0 in a refusal.
pub fn slot(answer: &Result<EditAnswer, Refusal>) -> u32
    ensures { result ≡ slot_no answer.now }
{
    match answer {
        Ok(EditAnswer::Done { slot, .. } | EditAnswer::Before { slot, .. }) => *slot,
        Err(_) => 0,
    }
}

// The map's length after an edit; 0 in a refusal.
pub fn length(answer: &Result<EditAnswer, Refusal>) -> u32
    ensures { result ≡ length_of answer.now }
{
    match answer {
        Ok(EditAnswer::Done { length, .. } | EditAnswer::Before { length, .. }) => *length,
        Err(_) => 0,
    }
}

// How an edit starts that isn't refused by the check, for its layout or for its journal: its number is held, by a record of this kind and slot; or it is new,
// in a map of so many index blocks and a journal of so many records. `free` is the slot that an add takes: the first free one, or where none is free the first
// one of a new block, 256 times the blocks. `kind` is the number in the journal.
#[derive(Clone, Copy, Debug, PartialEq, Eq)]
pub enum EditStart {
    Held {
        blocks: usize,
        kind: u32,
        slot: u32,
    },
    New {
        blocks: usize,
        records: usize,
        free: usize,
    },
}

// How an edit starts on a map that was examined: the check's refusal, or 17 in 9 to 11, or what the look into the journal says. The lent order has the index
// blocks afterwards, where an edit takes the map. The examination is the caller's, so that its tables are gone when those of the journal are made.
pub fn begin(
    m: &[u8],
    used: usize,
    j: &[u8],
    e: u32,
    v: Result<ExaminedMap, Refusal>,
    order: &mut [u32],
) -> Result<EditStart, Refusal>
    requires { (v ≡ with_free m.now (verdict m.now used)) × (used ≤ map_limit → used < header_size + index_block_size * (length order.old + 1)) }
    ensures { (result ≡ start_of m.now used j.now e)
        × ((n : ℕ) → Editable m.now used n → Ordered index_head m.now n order.new) }
{
    let ExaminedMap::Accepted { blocks, free } = v? else {
        return Err(Refusal::WideMap);
    };
    order_blocks(m, Header::INDEX, blocks, order);
    let slots = MapSlots {
        map: m,
        order: &order[..blocks],
    };
    let look = look_up(j, slots, e)?;
    Ok(match look {
        JournalLook::Held { kind, slot } => EditStart::Held { blocks, kind, slot },
        JournalLook::New { used: records } => EditStart::New {
            blocks,
            records,
            free,
        },
    })
}
