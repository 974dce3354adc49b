// The search program: reads a window and then a map from standard input, and writes the blocks walked, the count found and a line for each slot found; or the
// refusal. The search is `find`'s. What is here follows the links once more for the lines, with a test before every read.
#![tactic(auto)]

ghost use Rattle.std.specs.Prelude.{◌≡◌, ◌≤◌, length, IfOk, IfSome};

use find::Listed;
use judge::slot_place;
use numbers::{u16_at, u32_at};
use records::{Header, is_wide};
use refusals::Refusal;
use slots::{IndexBlock, Slot};
use std::io::{self, Read};
use wide::WideSlot;
use windows::Window;

// Reads until the buffer is full or the input ends, and returns how many bytes it put at the buffer's start. Each step is as long as its read, so this is no
// `for`; std's own calls need the length beforehand, or a heap.
fn read_full(input: &mut impl Read, buffer: &mut [u8]) -> io::Result<usize>
    ensures { IfOk result (λ n. n ≤ length buffer.new) }
{
    let mut done = 0;
    while done < buffer.len() {
        let n = input.read(&mut buffer[done..])?;
        if n == 0 {
            break;
        }
        done += n;
    }
    Ok(done)
}

// The n bytes at a place, or none where the map ends before.
fn bytes_at(m: &[u8], at: usize, n: usize) -> Option<&[u8]>
    ensures { IfSome result (λ part. length part.now ≡ n) }
{
    m.get(at..)?.get(..n)
}

// The link stored at a place.
fn link_at(m: &[u8], at: usize) -> Option<u32> {
    Some(u32_at(bytes_at(m, at, 4)?, 0))
}

// Where index block k starts.
fn block_at(m: &[u8], k: usize) -> Option<u32> {
    let mut at = link_at(m, Header::INDEX)?;
    for _ in 0..k {
        at = link_at(m, at as usize)?;
    }
    Some(at)
}

// The Sym of slot s, with its sign, and its position.
fn slot_at(m: &[u8], s: usize) -> Option<(i32, u32)> {
    let version = u16_at(bytes_at(m, 0, Header::SIZE)?, Header::VERSION);
    let block = block_at(m, s / IndexBlock::SLOTS)?;
    let at = slot_place(version, block as usize, s % IndexBlock::SLOTS);
    if is_wide(version) {
        let slot = WideSlot::at(bytes_at(m, at, WideSlot::SIZE)?, 0);
        Some((slot.sym.cast_signed(), slot.position))
    } else {
        let slot = Slot::at(bytes_at(m, at, Slot::SIZE)?, 0);
        Some((i32::from(slot.sym.cast_signed()), slot.position))
    }
}

// The line of a slot: its number, its Sym and its position.
fn write_slot(rt: &impl Print, m: &[u8], s: u32) -> io::Result<()> {
    match slot_at(m, s as usize) {
        Some((sym, position)) => println!(rt; "{s} {sym} {position}"),
        None => Ok(()),
    }
}

// What the program writes of an answer.
fn write_answer(
    rt: &impl Print,
    input: &[u8],
    list: &[u32],
    a: Result<Listed, Refusal>,
) -> io::Result<()> {
    match a {
        Ok(Listed { count, blocks }) => {
            println!(rt; "blocks {blocks}")?;
            println!(rt; "found {count}")?;
            if let Some(map) = input.get(Window::SIZE..) {
                for &s in list.iter().take(count as usize) {
                    write_slot(rt, map, s)?;
                }
            }
            Ok(())
        }
        Err(refusal) => println!(rt; "{refusal}"),
    }
}

// A window, a map, and one byte more that tells a longer map.
const INPUT: usize = Window::SIZE + find::PROGRAM_LIMIT + 1;

// A map of 65,536 bytes has at most so many slots: 10 index blocks of 256.
const SLOTS: usize = (find::PROGRAM_LIMIT - Header::SIZE) / IndexBlock::SIZE * IndexBlock::SLOTS;

fn main(rt: HostRuntime) -> io::Result<()> {
    let mut input = [0u8; INPUT];
    let n = read_full(&mut rt.stdin(), &mut input)?;
    let mut list = [0u32; SLOTS];
    let a = find::search_input(&input[..n], &mut list);
    write_answer(&rt, &input[..n], &list, a)
}
