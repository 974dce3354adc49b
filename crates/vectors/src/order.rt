// The orders of the script, each read from its 12 bytes.
use numbers::{u16_at, u32_at};

// An edit of the map under the journal.
#[derive(Clone, Copy)]
pub(super) enum Edit {
    Add { number: u32 },
    Remove { number: u32, slot: u32 },
    Reinstate { number: u32, slot: u32 },
}

// What the script tells to do.
#[derive(Clone, Copy)]
pub(super) enum Order {
    LendMap { n: usize, byte: u8 },
    ClearMap { at: usize, n: usize },
    MapByte { at: usize, byte: u8 },
    MapHalf { at: usize, half: u16 },
    MapWord { at: usize, word: u32 },
    MapLength { n: usize },
    LendJournal { n: usize, byte: u8 },
    JournalWord { at: usize, word: u32 },
    OfferPairs { pairs: u32, coordinate: u32 },
    ObjectWord { at: usize, word: u32 },
    OfferBytes { n: usize },
    LendList { n: usize, entry: u32 },
    LeftBottom { left: i32, bottom: i32 },
    RightTop { right: i32, top: i32 },
    Check,
    Search,
    Edit(Edit),
    ShowCase { number: u32, version: u32 },
    ShowMap { at: usize },
    ShowEntry { at: usize },
}

// What ends a script in place of an order.
#[derive(Clone, Copy)]
pub(super) enum Stop {
    End,
    BadScript,
}

impl TryFrom<[u8; 12]> for Order {
    type Error = Stop;

    fn try_from(bytes: [u8; 12]) -> Result<Order, Stop> {
        let a = u32_at(&bytes, 4);
        let b = u32_at(&bytes, 8);
        let (at, n) = (a as usize, a as usize);
        let (byte, half, word) = (bytes[8], u16_at(&bytes, 8), b);
        Ok(match u32_at(&bytes, 0) {
            0 => return Err(Stop::End),
            1 => Order::LendMap { n, byte },
            2 => Order::ClearMap { at, n: b as usize },
            3 => Order::MapByte { at, byte },
            4 => Order::MapHalf { at, half },
            5 => Order::MapWord { at, word },
            6 => Order::MapLength { n },
            7 => Order::LendJournal { n, byte },
            8 => Order::JournalWord { at, word },
            9 => Order::OfferPairs {
                pairs: a,
                coordinate: b,
            },
            10 => Order::ObjectWord { at, word },
            11 => Order::OfferBytes { n },
            12 => Order::LendList { n, entry: b },
            13 => Order::LeftBottom {
                left: a.cast_signed(),
                bottom: b.cast_signed(),
            },
            14 => Order::RightTop {
                right: a.cast_signed(),
                top: b.cast_signed(),
            },
            15 => Order::Check,
            16 => Order::Search,
            17 => Order::Edit(Edit::Add { number: a }),
            18 => Order::Edit(Edit::Remove { number: a, slot: b }),
            19 => Order::Edit(Edit::Reinstate { number: a, slot: b }),
            20 => Order::ShowCase {
                number: a,
                version: b,
            },
            21 => Order::ShowMap { at },
            22 => Order::ShowEntry { at },
            _ => return Err(Stop::BadScript),
        })
    }
}
