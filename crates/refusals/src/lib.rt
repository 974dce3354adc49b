// Document 01's refusals: one enum, with the number and the place of each.
#![tactic(auto)]

ghost use Rattle.std.specs.Prelude.{◌≡◌};
ghost use Rattle.refusals.specs.Refusals.{number_of, place_of, answer_number, answer_place};

use std::fmt;

// Why a call refuses. `place` is where in the map the fault stands, or the link, the entry or the slot that leads to it.
#[derive(Clone, Copy, Debug, PartialEq, Eq)]
pub enum Refusal {
    // 1: the length is under 48 or over the limit, or past the buffer.
    BadLength,
    // 2: the mark.
    BadMark,
    // 3: the version, with its section mark or its file type.
    BadVersion,
    // 4: setup or info.
    BadPart { place: u32 },
    // 5: an index block.
    BadIndex { place: u32 },
    // 6: a symbol block or record.
    BadSymbol { place: u32 },
    // 7: a live slot.
    BadSlot { place: u32 },
    // 8: a window with left > right or bottom > top.
    BadWindow,
    // 9: the list is shorter than the count.
    ShortList { needed: u32 },
    // 10: the offered object.
    BadObject,
    // 11: the new length is over the buffer or the limit.
    NoRoom,
    // 12: the slot is missing or not in the state wanted, or reinstating is refused.
    WrongState,
    // 13: the journal, or edit number 0.
    BadJournal,
    // 14: the number is held by another edit.
    NumberHeld,
    // 15: the journal is full.
    JournalFull,
    // 17: an edit of a map of 9 to 11.
    WideMap,
}

impl Refusal {
    // Document 01's number.
    pub fn number(self) -> u32
        ensures { result ≡ number_of self }
    {
        match self {
            Refusal::BadLength => 1,
            Refusal::BadMark => 2,
            Refusal::BadVersion => 3,
            Refusal::BadPart { .. } => 4,
            Refusal::BadIndex { .. } => 5,
            Refusal::BadSymbol { .. } => 6,
            Refusal::BadSlot { .. } => 7,
            Refusal::BadWindow => 8,
            Refusal::ShortList { .. } => 9,
            Refusal::BadObject => 10,
            Refusal::NoRoom => 11,
            Refusal::WrongState => 12,
            Refusal::BadJournal => 13,
            Refusal::NumberHeld => 14,
            Refusal::JournalFull => 15,
            Refusal::WideMap => 17,
        }
    }

    // Document 01's place, 0 where the refusal has none.
    pub fn place(self) -> u32
        ensures { result ≡ place_of self }
    {
        match self {
            Refusal::BadPart { place }
            | Refusal::BadIndex { place }
            | Refusal::BadSymbol { place }
            | Refusal::BadSlot { place } => place,
            _ => 0,
        }
    }
}

impl fmt::Display for Refusal {
    fn fmt<W: fmt::Write>(&self, f: &mut fmt::Formatter<W>) -> fmt::Result {
        write!(f, "refused {} at {}", self.number(), self.place())
    }
}

// The number that a call answers with: 0 where it does not refuse.
pub fn number<T>(answer: &Result<T, Refusal>) -> u32
    ensures { result ≡ answer_number answer.now }
{
    match answer {
        Ok(_) => 0,
        Err(e) => e.number(),
    }
}

// The place that it answers with.
pub fn place<T>(answer: &Result<T, Refusal>) -> u32
    ensures { result ≡ answer_place answer.now }
{
    match answer {
        Ok(_) => 0,
        Err(e) => e.place(),
    }
}
