// Making bare bits, and reading them.
ghost use Rattle.bits.specs.BareMeaning.{bare_bits, bare_words};
ghost use Rattle.bits.specs.Words.{bits_in, held, spare_zero};
ghost use Rattle.std.specs.Prelude.{◌≡◌, ◌↔◌, All, IsTrue, length};

use crate::bare::BareBits;
use crate::bit_row::BitRow;
use crate::row::Row;

impl<'a> BareBits<'a> {
    // The first `len` bits of the words, or all of them where they are fewer.
    pub fn new(words: &'a [u64], len: usize) -> BareBits<'a>
        ensures bits { bare_bits result ≡ bits_in words.now (held len (length words.now)) }
        ensures words { bare_words result ≡ words.now }
    {
        if len / 64 >= words.len() {
            return BareBits {
                words,
                len: words.len() * 64,
            };
        }
        BareBits { words, len }
    }

    // Whether each bit of the words after those of the row is a zero.
    pub fn is_spare_zero(&self) -> bool
        ensures { result ≡ spare_zero (bare_words self.now) (length (bare_bits self.now)) }
    {
        is_zero_from(self.words, self.len)
    }
}

impl<'a> Row for BareBits<'a> {
    type Item = bool;

    ghost items = { bare_bits };

    fn len(&self) -> usize {
        self.len
    }

    fn get(&self, place: usize) -> Option<bool> {
        if place >= self.len {
            return None;
        }
        Some((self.words[place / 64] >> (place % 64)) & 1 == 1)
    }
}

impl<'a> BitRow for BareBits<'a> {
    ghost bits = { bare_bits };

    fn len(&self) -> usize {
        Row::len(self)
    }

    fn bit(&self, place: usize) -> Option<bool> {
        self.get(place)
    }
}

// Whether each bit of the words from the place on is a zero.
fn is_zero_from(words: &[u64], place: usize) -> bool
    ensures { result ≡ spare_zero words.now place }
{
    let last = place / 64;
    if last >= words.len() {
        return true;
    }
    words[last] >> (place % 64) == 0 && are_zero(&words[last + 1..])
}

// Whether each word is zero.
fn are_zero(words: &[u64]) -> bool
    ensures { IsTrue result ↔ All (λ w. w ≡ 0) words.now }
{
    words.iter().all(|word| *word == 0)
}
