// Plays a script from standard input, so that document 01's cases can be run and compared. A script sets up a map, a journal, an object, a list and a window,
// makes the calls, and has a line written for each. An edit's line ends with sums over every byte lent, so that no byte changes unseen.
//
// A script is orders of 12 bytes, three numbers of 32 bits: what to do, a and b. An order that reaches past a buffer does nothing.
//
//   1  lend a bytes of the map, each b
//   2  b zeros at a of the map
//   3  the byte b at a of the map
//   4  the 16 bits b at a of the map
//   5  the 32 bits b at a of the map
//   6  the map's length is a
//   7  lend a bytes of the journal, each b
//   8  the 32 bits b at a of the journal
//   9  offer an object of a pairs, its header zero and each coordinate b
//  10  the 32 bits b at a of the object
//  11  offer a bytes of the object
//  12  lend a entries of the list, each b
//  13  the window's left is a and its bottom b
//  14  the window's right is a and its top b
//  15  check
//  16  search
//  17  add under number a
//  18  remove slot b under number a
//  19  reinstate slot b under number a
//  20  write a case's number a and version b
//  21  write the 32 bits at a of the map
//  22  write entry a of the list
#![tactic(auto)]

mod buffer;
mod desk;
mod order;

use buffer::Buffer;
use desk::Desk;
use order::{Order, Stop};
use std::io::{self, ErrorKind, Read};
use windows::Window;

// The next 12 bytes of the script, or none where the input ends before.
fn next(input: &mut impl Read) -> io::Result<Option<[u8; 12]>> {
    let mut bytes = [0u8; 12];
    match input.read_exact(&mut bytes) {
        Ok(()) => Ok(Some(bytes)),
        Err(e) if e.kind() == ErrorKind::UnexpectedEof => Ok(None),
        Err(e) => Err(e),
    }
}

// The orders up to the last; at most a million.
fn play(rt: &impl Print, input: &mut impl Read, desk: &mut Desk) -> io::Result<()> {
    for _ in 0..1_000_000 {
        let Some(bytes) = next(input)? else {
            break;
        };
        match Order::try_from(bytes) {
            Ok(order) => desk.obey(rt, order)?,
            Err(Stop::End) => break,
            Err(Stop::BadScript) => return println!(rt; "bad script"),
        }
    }
    Ok(())
}

// The map has room for an object of 32,768 pairs and a block, the journal for one record more than the limit, the object for one pair more than the limit.
fn main(rt: HostRuntime) -> io::Result<()> {
    let mut map = [0u8; 270000];
    let mut journal = [0u8; 65552];
    let mut object = [0u8; 262184];
    let mut list = [0u32; 2048];
    let mut desk = Desk {
        map: Buffer::new(&mut map),
        used: 0,
        journal: Buffer::new(&mut journal),
        object: Buffer::new(&mut object),
        list: Buffer::new(&mut list),
        window: Window {
            left: 0,
            bottom: 0,
            right: 0,
            top: 0,
        },
    };
    play(&rt, &mut rt.stdin(), &mut desk)
}
