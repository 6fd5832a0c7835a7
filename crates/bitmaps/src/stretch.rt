// The ones of a stretch of words: how many, the first, and the one of a number. That the words are few stands at each function,
// and in no struct: it would be made of a slice for a single call each time.
ghost use Rattle.bitmaps.specs.Counts.{ones_of, select_of};
ghost use Rattle.bitmaps.specs.Stretches.{stretch_bits};
ghost use Rattle.bits.specs.Words.{bit_at};
ghost use Rattle.ordered.specs.Lists.{first_place};
ghost use Rattle.std.specs.Prelude.{◌≡◌, ◌-◌, ◌*◌, ◌%◌, ◌^◌, ◌<◌, ◌≤◌, length, take, drop};

use crate::nth::nth_one;

// The words from this one on, to the end of its block of eight.
pub(crate) fn block_from(words: &[u64], word: usize) -> &[u64]
    requires { word ≤ length words.now }
    ensures { result.now ≡ take (8 - word % 8) (drop word words.now) }
{
    &words[word..words.len().min(word / 8 * 8 + 8)]
}

// How many ones there are.
pub(crate) fn ones_in(words: &[u64]) -> usize
    requires { length words.now ≤ 2 ^ 32 }
    ensures { result ≡ ones_of (stretch_bits words.now) }
{
    words.iter().map(|word| word.count_ones() as usize).sum()
}

// The place of the first one, or none if there is none.
pub(crate) fn first_one(words: &[u64]) -> Option<usize>
    requires { length words.now ≤ 2 ^ 32 }
    ensures { result ≡ first_place (bit_at words.now) 0 (64 * length words.now) }
{
    let word = words.iter().position(|word| *word != 0)?;
    Some(64 * word + words[word].trailing_zeros() as usize)
}

// The place of the one of this number, counted from 1, or none if there is none.
pub(crate) fn nth_in(words: &[u64], nth: usize) -> Option<usize>
    requires small { length words.now ≤ 2 ^ 32 }
    requires some { 0 < nth }
    ensures { result ≡ select_of (stretch_bits words.now) nth }
{
    let mut rest = nth;
    for (index, word) in words.iter().enumerate() {
        let count = word.count_ones() as usize;
        if rest <= count {
            return Some(64 * index + nth_one(*word, rest));
        }
        rest -= count;
    }
    None
}
