// Words of bits, and the list of the bits that are 1.
#![tactic(auto)]

ghost use Rattle.std.specs.Prelude.{◌≡◌, ◌+◌, ◌*◌, ◌≤◌, ◌<◌, length};
ghost use Rattle.std.proofs.lemmas.List.Edits.{sets};
ghost use Rattle.bits.specs.Bits.{ones, ones_in, word_bits, full};

// A word has so many bits.
pub const WORD: usize = 64;

// The bits of a word that are 1, by number, the lowest has number `first`, go to the list behind so many entries. How many entries there are then. Each turn
// takes the lowest bit that is 1 off: as many turns as there are such bits, which no range tells.
pub fn list_word(list: &mut [u32], before: usize, first: usize, word: u64) -> usize
    requires { (before + length (ones word_bits word first) ≤ length list.old) × (first + word_bits ≤ 4294967296) }
    ensures { (result ≡ before + length (ones word_bits word first)) × (list.new ≡ sets list.old before (ones word_bits word first)) }
{
    let mut x = word;
    let mut d = before;
    while x != 0 {
        list[d] = first as u32 + x.trailing_zeros();
        d += 1;
        x &= x - 1;
    }
    d
}

// The same of a word all of whose bits are 1.
fn list_full(list: &mut [u32], before: usize, first: usize) -> usize
    requires { (before + word_bits ≤ length list.old) × (first + word_bits ≤ 4294967296) }
    ensures { (result ≡ before + length (ones word_bits full first)) × (list.new ≡ sets list.old before (ones word_bits full first)) }
{
    for (i, entry) in list[before..before + WORD].iter_mut().enumerate() {
        *entry = (first + i) as u32;
    }
    before + WORD
}

// The bits that are 1 in the words, by number, over the first entries of the list.
pub fn list_words(list: &mut [u32], words: &[u64])
    requires { (length words.now ≤ 67108864) × (length (ones_in word_bits words.now (length words.now)) ≤ length list.old) }
    ensures { list.new ≡ sets list.old 0 (ones_in word_bits words.now (length words.now)) }
{
    let mut d = 0;
    for (i, &x) in words.iter().enumerate() {
        d = if x == u64::MAX {
            list_full(list, d, WORD * i)
        } else {
            list_word(list, d, WORD * i, x)
        };
    }
}
