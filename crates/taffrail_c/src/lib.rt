// The C interface: `taffrail` as a static library. A slice passes as a pointer and then its length, a `&mut u32` as a pointer. Each call is the one of
// `taffrail` that has its name, with its clauses. hosts/include/taffrail.h is its declaration for C.
#![tactic(auto)]

ghost use Rattle.taffrail.specs.Calls.{window_from, CChecked, CSearched, CAdded, CRemoved, CReinstated};

// The check.
#[unsafe(no_mangle)]
pub extern "C" fn taffrail_check(map: &[u8], used: usize, place: &mut u32) -> u32
    ensures { CChecked map.now used result place.new }
{
    taffrail::taffrail_check(map, used, place)
}

// The search.
#[unsafe(no_mangle)]
pub extern "C" fn taffrail_search(
    map: &[u8],
    used: usize,
    left: i32,
    bottom: i32,
    right: i32,
    top: i32,
    list: &mut [u32],
    place: &mut u32,
    count: &mut u32,
    blocks: &mut u32,
) -> u32
    ensures { CSearched map.now used (window_from left bottom right top) list.old result
        place.new count.new blocks.new list.new }
{
    taffrail::taffrail_search(
        map, used, left, bottom, right, top, list, place, count, blocks,
    )
}

// Add an object.
#[unsafe(no_mangle)]
pub extern "C" fn taffrail_add(
    map: &mut [u8],
    used: usize,
    journal: &mut [u8],
    edit: u32,
    object: &[u8],
    place: &mut u32,
    before: &mut u32,
    slot: &mut u32,
    new_length: &mut u32,
) -> u32
    ensures { CAdded map.old used journal.old edit object.now result
        place.new before.new slot.new new_length.new map.new journal.new }
{
    taffrail::taffrail_add(
        map, used, journal, edit, object, place, before, slot, new_length,
    )
}

// Remove the object of a slot.
#[unsafe(no_mangle)]
pub extern "C" fn taffrail_remove(
    map: &mut [u8],
    used: usize,
    journal: &mut [u8],
    edit: u32,
    at: u32,
    place: &mut u32,
    before: &mut u32,
    slot: &mut u32,
    new_length: &mut u32,
) -> u32
    ensures { CRemoved map.old used journal.old edit at result
        place.new before.new slot.new new_length.new map.new journal.new }
{
    taffrail::taffrail_remove(
        map, used, journal, edit, at, place, before, slot, new_length,
    )
}

// Reinstate the object of a slot.
#[unsafe(no_mangle)]
pub extern "C" fn taffrail_reinstate(
    map: &mut [u8],
    used: usize,
    journal: &mut [u8],
    edit: u32,
    at: u32,
    place: &mut u32,
    before: &mut u32,
    slot: &mut u32,
    new_length: &mut u32,
) -> u32
    ensures { CReinstated map.old used journal.old edit at result
        place.new before.new slot.new new_length.new map.new journal.new }
{
    taffrail::taffrail_reinstate(
        map, used, journal, edit, at, place, before, slot, new_length,
    )
}
