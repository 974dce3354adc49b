// What the C interface does, for Rattle: its five calls, with their names and numbers. `taffrail_c` exports them. Every call takes any bytes and numbers at
// all, returns document 01's number, and writes every out parameter, on a refusal too: C has no Result, and these parameters are its interface.
#![tactic(auto)]

ghost use Rattle.taffrail.specs.Calls.{window_from, CChecked, CSearched, Wrote, CAdded, CRemoved, CReinstated};

use edit::EditAnswer;
use refusals::Refusal;
use windows::Window;

// The check.
pub fn taffrail_check(map: &[u8], used: usize, place: &mut u32) -> u32
    ensures { CChecked map.now used result place.new }
{
    let v = accept::check(map, used);
    *place = refusals::place(&v);
    refusals::number(&v)
}

// The search.
pub fn taffrail_search(
    map: &[u8],
    used: usize,
    left: i32,
    bottom: i32,
    right: i32,
    top: i32,
    list: &mut [u32],
    place: &mut u32,
    count: &mut u32,
    blocks: &mut u32,
) -> u32
    ensures { CSearched map.now used (window_from left bottom right top) list.old result
        place.new count.new blocks.new list.new }
{
    let w = Window {
        left,
        bottom,
        right,
        top,
    };
    let a = find::search(map, used, w, list);
    *place = refusals::place(&a);
    *count = find::count(&a);
    *blocks = find::blocks(&a);
    refusals::number(&a)
}

// What an edit answered goes to the out parameters.
fn tell(
    a: &Result<EditAnswer, Refusal>,
    place: &mut u32,
    before: &mut u32,
    slot: &mut u32,
    new_length: &mut u32,
) -> u32
    ensures { Wrote a.now result place.new before.new slot.new new_length.new }
{
    *place = refusals::place(a);
    *before = edit::before(a);
    *slot = edit::slot(a);
    *new_length = edit::length(a);
    refusals::number(a)
}

// Add an object.
pub fn taffrail_add(
    map: &mut [u8],
    used: usize,
    journal: &mut [u8],
    edit: u32,
    object: &[u8],
    place: &mut u32,
    before: &mut u32,
    slot: &mut u32,
    new_length: &mut u32,
) -> u32
    ensures { CAdded map.old used journal.old edit object.now result
        place.new before.new slot.new new_length.new map.new journal.new }
{
    let a = add::add(map, used, journal, edit, object);
    tell(&a, place, before, slot, new_length)
}

// Remove the object of a slot.
pub fn taffrail_remove(
    map: &mut [u8],
    used: usize,
    journal: &mut [u8],
    edit: u32,
    at: u32,
    place: &mut u32,
    before: &mut u32,
    slot: &mut u32,
    new_length: &mut u32,
) -> u32
    ensures { CRemoved map.old used journal.old edit at result
        place.new before.new slot.new new_length.new map.new journal.new }
{
    let a = change::remove(map, used, journal, edit, at);
    tell(&a, place, before, slot, new_length)
}

// Reinstate the object of a slot.
pub fn taffrail_reinstate(
    map: &mut [u8],
    used: usize,
    journal: &mut [u8],
    edit: u32,
    at: u32,
    place: &mut u32,
    before: &mut u32,
    slot: &mut u32,
    new_length: &mut u32,
) -> u32
    ensures { CReinstated map.old used journal.old edit at result
        place.new before.new slot.new new_length.new map.new journal.new }
{
    let a = change::reinstate(map, used, journal, edit, at);
    tell(&a, place, before, slot, new_length)
}
