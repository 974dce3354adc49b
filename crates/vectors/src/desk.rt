// The desk: what the orders have set up for the calls, and the calls.
use super::buffer::{Buffer, sum};
use super::order::{Edit, Order};
use slots::ObjectHeader;
use std::io;
use windows::Window;

// The buffers, the map's length and the window.
#[derive(Drop)]
pub(super) struct Desk<'a> {
    pub map: Buffer<'a, u8>,
    pub used: usize,
    pub journal: Buffer<'a, u8>,
    pub object: Buffer<'a, u8>,
    pub list: Buffer<'a, u32>,
    pub window: Window,
}

impl<'a> Desk<'a> {
    // One order.
    pub fn obey(&mut self, rt: &impl Print, order: Order) -> io::Result<()> {
        match order {
            Order::LendMap { n, byte } => self.map.lend(n, byte),
            Order::ClearMap { at, n } => self.map.fill(at, n, 0),
            Order::MapByte { at, byte } => self.map.put(at, &[byte]),
            Order::MapHalf { at, half } => self.map.put(at, &half.to_le_bytes()),
            Order::MapWord { at, word } => self.map.put(at, &word.to_le_bytes()),
            Order::MapLength { n } => self.used = n,
            Order::LendJournal { n, byte } => self.journal.lend(n, byte),
            Order::JournalWord { at, word } => self.journal.put(at, &word.to_le_bytes()),
            Order::OfferPairs { pairs, coordinate } => self.offer(pairs, coordinate),
            Order::ObjectWord { at, word } => self.object.put(at, &word.to_le_bytes()),
            Order::OfferBytes { n } => self.object.count = n,
            Order::LendList { n, entry } => self.list.lend(n, entry),
            Order::LeftBottom { left, bottom } => {
                self.window = Window {
                    left,
                    bottom,
                    ..self.window
                };
            }
            Order::RightTop { right, top } => {
                self.window = Window {
                    right,
                    top,
                    ..self.window
                };
            }
            Order::Check => self.check(rt)?,
            Order::Search => self.search(rt)?,
            Order::Edit(edit) => self.edit(rt, edit)?,
            Order::ShowCase { number, version } => println!(rt; "T{number} version {version}")?,
            Order::ShowMap { at } => self.show_map(rt, at)?,
            Order::ShowEntry { at } => self.show_entry(rt, at)?,
        }
        Ok(())
    }

    // An object is offered, its header zero and each coordinate the same.
    fn offer(&mut self, pairs: u32, coordinate: u32) {
        let n = ObjectHeader::SIZE + ObjectHeader::PAIR * pairs as usize;
        if let Some(object) = self.object.all.get_mut(..n) {
            let (header, coordinates) = object.split_at_mut(ObjectHeader::SIZE);
            header.fill(0);
            coordinates.as_chunks_mut().0.fill(coordinate.to_le_bytes());
            self.object.count = n;
        }
    }

    fn check(&self, rt: &impl Print) -> io::Result<()> {
        let Some(map) = self.map.lent() else {
            return Ok(());
        };
        let v = accept::check(map, self.used);
        let (number, place) = (refusals::number(&v), refusals::place(&v));
        println!(rt; "check {number} at {place}")
    }

    fn search(&mut self, rt: &impl Print) -> io::Result<()> {
        let (Some(map), Some(list)) = (self.map.lent(), self.list.lent_mut()) else {
            return Ok(());
        };
        let a = find::search(map, self.used, self.window, list);
        let (number, place) = (refusals::number(&a), refusals::place(&a));
        let (count, blocks) = (find::count(&a), find::blocks(&a));
        let list = sum(list);
        println!(rt; "search {number} at {place} found {count} blocks {blocks} list {list}")
    }

    // An edit. The length that it answers with is the map's from then on. Its line ends with sums over all that is lent.
    fn edit(&mut self, rt: &impl Print, edit: Edit) -> io::Result<()> {
        let (Some(map), Some(journal)) = (self.map.lent_mut(), self.journal.lent_mut()) else {
            return Ok(());
        };
        let a = match edit {
            Edit::Add { number } => {
                let Some(object) = self.object.lent() else {
                    return Ok(());
                };
                add::add(map, self.used, journal, number, object)
            }
            Edit::Remove { number, slot } => change::remove(map, self.used, journal, number, slot),
            Edit::Reinstate { number, slot } => change::reinstate(
                map, self.used, journal, number, slot,
            ),
        };
        let (number, place) = (refusals::number(&a), refusals::place(&a));
        let (before, slot, length) = (edit::before(&a), edit::slot(&a), edit::length(&a));
        let (map, journal) = (sum(map), sum(journal));
        print!(rt; "edit {number} at {place} before {before} slot {slot} length {length}")?;
        println!(rt; " map {map} journal {journal}")?;
        if a.is_ok() {
            self.used = length as usize;
        }
        Ok(())
    }

    fn show_map(&self, rt: &impl Print, at: usize) -> io::Result<()> {
        match self.map.all.get(at..).and_then(|rest| rest.first_chunk()) {
            Some(&word) => println!(rt; "map at {at} holds {}", u32::from_le_bytes(word)),
            None => Ok(()),
        }
    }

    fn show_entry(&self, rt: &impl Print, at: usize) -> io::Result<()> {
        match self.list.all.get(at) {
            Some(entry) => println!(rt; "entry {at} holds {entry}"),
            None => Ok(()),
        }
    }
}
