// The look at a word's slots, of a map of the layout L: each is judged, and has a bit that says whether the search lists it.
ghost use Rattle.std.specs.Prelude.{◌≡◌, ◌+◌, ◌*◌, ◌≤◌};
ghost use Rattle.bits.specs.Bits.{word_bits};
ghost use Rattle.judge.specs.Judging.{version_of};
ghost use Rattle.judge.specs.Rules.{family_for};
ghost use Rattle.accept.specs.Opens.{slot_fault_for};
ghost use Rattle.look.specs.Looks.{slot_from, live_from, word_seen};

use bits::WORD;
use chain::IndexedMap;
use judge::Layout;
use refusals::Refusal;
use windows::{Rectangle, Window, meets_window};

// The highest bit of a word.
const HIGH: u64 = 1 << 63;

// A word's slots in a row, from a place on: judged, and looked at, up to the first at fault. Where none is: which of them are live and meet the window, as
// bits, the first the lowest. A slot that is not live is neither at fault nor listed, so that is asked first.
pub fn look_in_word<L: Layout>(
    map: &IndexedMap<L>,
    version: u16,
    from: usize,
    w: Window,
) -> Result<u64, Refusal>
    requires { (version ≡ version_of map.now.m.now) × (from + word_bits * (family_for L.wide).slot ≤ map.now.used) }
    ensures { result
        ≡ word_seen (slot_fault_for L.wide map.now.m.now map.now.used map.now.index.now) (live_from (family_for L.wide) map.now.m.now w from)
        (slot_from (family_for L.wide).slot from) }
{
    let m = map.m;
    let mut bits = 0u64;
    for j in 0..WORD {
        let at = from + L::SLOT * j;
        bits /= 2;
        let live = L::is_live(m, at);
        if live {
            if L::slot_at_fault(map, version, at) {
                return Err(Refusal::BadSlot { place: at as u32 });
            }
            let hit = meets_window(Rectangle::at(m, at), w);
            bits += u64::from(hit) * HIGH;
        }
    }
    Ok(bits)
}
