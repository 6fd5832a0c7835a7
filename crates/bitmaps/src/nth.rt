// The place of a one within a word.
ghost use Rattle.bits.specs.Words.{bit_of};
ghost use Rattle.std.specs.Prelude.{◌≡◌, ◌+◌, ◌%◌, ◌^◌, ◌<◌, ◌≤◌, true, count_ones};

// The place of the so-many-th one of the word, counted from 1, by halving.
pub(crate) fn nth_one(word: u64, nth: usize) -> usize
    requires some { 0 < nth }
    requires enough { nth ≤ count_ones word }
    ensures within { result < 64 }
    ensures one { bit_of word result ≡ true }
    ensures before { count_ones (word % 2 ^ result) + 1 ≡ nth }
{
    let mut place = 0;
    let mut rest = nth;
    for half in [32, 16, 8, 4, 2, 1] {
        let low = ((word >> place) & ((1 << half) - 1)).count_ones() as usize;
        if rest > low {
            rest -= low;
            place += half;
        }
    }
    place
}
