// The search by rectangle: one pass over the slots, which judges each and has a bit for it, and then the list of the bits that are 1.
#![tactic(auto)]

ghost use Rattle.std.specs.Prelude.{◌≡◌, Ok, true, false, ℕ, ◌+◌, ◌*◌, ◌≤◌, length};
ghost use Rattle.records.specs.Sizes.{map_limit, index_page};
ghost use Rattle.windows.specs.declared.Window.{Window};
ghost use Rattle.windows.specs.Windows.{window_good};
ghost use Rattle.accept.specs.Opens.{Open, opened_of};
ghost use Rattle.look.specs.Looks.{block_words};
ghost use Rattle.find.specs.Searches.{count_of, blocks_of, checked_length, answer_of, Searched};
ghost use Rattle.find.specs.Inputs.{SearchedInput};

use accept::{check, open_map};
use bits::list_words;
use look::{BLOCK_WORDS, look_in_slots};
use records::Header;
use refusals::Refusal;
use slots::IndexBlock;
use windows::{Window, window_good};

// What a search finds: how many slots, which stand in the list, and the blocks walked.
#[derive(Clone, Copy, Debug, PartialEq, Eq)]
pub struct Listed {
    pub count: u32,
    pub blocks: u32,
}

// What C is told of an answer, which has no Result there: the count found, or needed, else 0.
pub fn count(answer: &Result<Listed, Refusal>) -> u32
    ensures { result ≡ count_of answer.now }
{
    match answer {
        Ok(l) => l.count,
        Err(Refusal::ShortList { needed }) => *needed,
        Err(_) => 0,
    }
}

// The blocks walked; 0 in a refusal.
pub fn blocks(answer: &Result<Listed, Refusal>) -> u32
    ensures { result ≡ blocks_of answer.now }
{
    match answer {
        Ok(l) => l.blocks,
        Err(_) => 0,
    }
}

// A length that is checked against the limits and the buffer, else 0: that is a length too, which no map has, and what takes it answers with 1.
#[tactic(auto, using(std::proofs::lemmas::Bool::Decides::nat_tests), unfolding(crate::specs::Searches::checked_length, judge::specs::Judging::length_good))]
pub fn checked_length(m: &[u8], used: usize) -> usize
    ensures { result ≡ checked_length m.now used }
{
    if (Header::SIZE..=Header::LIMIT).contains(&used) && used <= m.len() {
        used
    } else {
        0
    }
}

// The search of an open map by a good window, with words enough for a bit for each slot: all slots are judged and looked at before the list is touched.
fn search_words(
    m: &[u8],
    used: usize,
    index: &[u32],
    n: usize,
    w: Window,
    list: &mut [u32],
    words: &mut [u64],
) -> Result<Listed, Refusal>
    requires { Open m.now used n index.now × (opened_of m.now used ≡ Ok n) × (window_good w ≡ true) × (block_words * n ≤ length words.old) }
    ensures { Searched m.now used w list.old result list.new }
{
    let count = look_in_slots(m, used, index, n, w, words)?;
    if list.len() < count {
        return Err(Refusal::ShortList {
            needed: count as u32,
        });
    }
    list_words(list, &words[..BLOCK_WORDS * n]);
    Ok(Listed {
        count: count as u32,
        blocks: n as u32,
    })
}

// The same, with N words. They stand in this function alone: so the compiler gives each size its own room, and no more than the map needs is taken.
fn search_with_words<const N: usize>(
    m: &[u8],
    used: usize,
    index: &[u32],
    n: usize,
    w: Window,
    list: &mut [u32],
) -> Result<Listed, Refusal>
    requires { Open m.now used n index.now × (opened_of m.now used ≡ Ok n) × (window_good w ≡ true) × (block_words * n ≤ N) × (N ≤ 65536) }
    ensures { Searched m.now used w list.old result list.new }
{
    let mut words = [0u64; N];
    search_words(m, used, index, n, w, list, &mut words)
}

// So many blocks are few.
const FEW: usize = 16;

// The words of few blocks, of the blocks of a small map, and of the most that a map has.
const FEW_WORDS: usize = BLOCK_WORDS * FEW;

const SMALL_WORDS: usize = BLOCK_WORDS * IndexBlock::SMALL_MOST;

const MOST_WORDS: usize = BLOCK_WORDS * IndexBlock::MOST;

// The same, with words as many as the map needs. It stands apart from the opening, whose tables are then gone.
fn search_slots(
    m: &[u8],
    used: usize,
    index: &[u32],
    n: usize,
    w: Window,
    list: &mut [u32],
) -> Result<Listed, Refusal>
    requires { Open m.now used n index.now × (opened_of m.now used ≡ Ok n) × (window_good w ≡ true) }
    ensures { Searched m.now used w list.old result list.new }
{
    if n <= FEW {
        search_with_words::<FEW_WORDS>(m, used, index, n, w, list)
    } else if n <= IndexBlock::SMALL_MOST {
        search_with_words::<SMALL_WORDS>(m, used, index, n, w, list)
    } else {
        search_with_words::<MOST_WORDS>(m, used, index, n, w, list)
    }
}

// The search by a good window, with a table of N entries for the index blocks.
fn search_with_table<const N: usize>(
    m: &[u8],
    used: usize,
    w: Window,
    list: &mut [u32],
) -> Result<Listed, Refusal>
    requires { (window_good w ≡ true) × (used ≤ map_limit → used + index_page ≤ N * index_page) × (N ≤ 65536) }
    ensures { Searched m.now used w list.old result list.new }
{
    let mut index = [0u32; N];
    let n = open_map(m, used, &mut index)?;
    search_slots(m, used, &index, n, w, list)
}

// What a window that is not good answers: the check's refusal, or 8.
fn bad_window(m: &[u8], used: usize) -> Result<Listed, Refusal>
    ensures { (w : Window) → (room : ℕ) → window_good w ≡ false → result ≡ answer_of m.now used w room }
{
    check(m, used)?;
    Err(Refusal::BadWindow)
}

// The search. Any slice, any `used`, any window, any list.
pub fn search(m: &[u8], used: usize, w: Window, list: &mut [u32]) -> Result<Listed, Refusal>
    ensures { Searched m.now used w list.old result list.new }
{
    if !window_good(w) {
        return bad_window(m, used);
    }
    if used <= Header::SMALL {
        search_with_table::<{ IndexBlock::SMALL_TABLE }>(m, used, w, list)
    } else {
        search_with_table::<{ IndexBlock::TABLE }>(m, used, w, list)
    }
}

// The search program takes a map of at most so many bytes.
pub const PROGRAM_LIMIT: usize = 65536;

// The search on the program's input: a window, then a map.
pub fn search_input(input: &[u8], list: &mut [u32]) -> Result<Listed, Refusal>
    ensures { SearchedInput input.now list.old result list.new }
{
    if input.len() < Window::SIZE || Window::SIZE + PROGRAM_LIMIT < input.len() {
        return Err(Refusal::BadLength);
    }
    let m = &input[Window::SIZE..];
    search(m, m.len(), Window::of(input), list)
}
