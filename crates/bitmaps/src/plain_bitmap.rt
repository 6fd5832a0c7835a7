// Reading plain bits, and counting in them.
ghost use Rattle.bitmaps.specs.Counts.{ones_of};
ghost use Rattle.bitmaps.specs.PlainMeaning.{plain_bits};
ghost use Rattle.bits.specs.Words.{bit_at, bits_in};
ghost use Rattle.ordered.specs.Lists.{first_place};
ghost use Rattle.ordered.specs.Order.{first_not_below};
ghost use Rattle.std.specs.Prelude.{◌≡◌, ◌-◌, ◌*◌, ◌%◌, ◌<◌, ◌≤◌, length, IfSome, SomeIff, nat_lt, slice_index};

use crate::bitmap::CountedBitmap;
use crate::plain::PlainBits;
use crate::stretch::{block_from, first_one, nth_in, ones_in};
use bits::{BareBits, BitRow, Row};
use ordered::OrderedList;

impl<'a> Row for PlainBits<'a> {
    type Item = bool;

    ghost items = { plain_bits };

    fn len(&self) -> usize {
        self.len
    }

    fn get(&self, place: usize) -> Option<bool> {
        BareBits::new(self.words, self.len).get(place)
    }
}

impl<'a> BitRow for PlainBits<'a> {
    ghost bits = { plain_bits };

    fn len(&self) -> usize {
        Row::len(self)
    }

    fn bit(&self, place: usize) -> Option<bool> {
        self.get(place)
    }
}

impl<'a> PlainBits<'a> {
    // How many of the first bits are ones.
    fn count(&self, end: usize) -> usize
        requires { end ≤ self.now.len }
        ensures { result ≡ ones_of (bits_in self.now.words.now end) }
    {
        if end == 0 {
            return 0;
        }
        let block = (end - 1) / 512;
        let before = self.directory[block] as usize;
        let count = before + ones_in(&self.words[8 * block..end / 64]);
        if end % 64 == 0 {
            return count;
        }
        let low = (1 << (end % 64)) - 1;
        count + (self.words[end / 64] & low).count_ones() as usize
    }

    // The first place with a one from the word on, to the end of its block of eight words.
    fn first_in_block(&self, word: usize) -> Option<usize>
        requires { word ≤ length self.now.words.now }
        ensures { result ≡ first_place (bit_at self.now.words.now) (64 * word) (64 * (8 - word % 8)) }
    {
        Some(64 * word + first_one(block_from(self.words, word))?)
    }

    // The first place with a one from the block on. The directory tells in which block it is.
    fn first_from(&self, block: usize) -> Option<usize>
        ensures { result ≡ first_place (bit_at self.now.words.now) (512 * block) (self.now.len - 512 * block) }
    {
        let more = *self.directory.get(block)? + 1;
        self.first_in_block(8 * self.last_block_below(more)?)
    }

    // The last block with fewer ones before it, or none if there is none.
    fn last_block_below(&self, ones: u64) -> Option<usize>
        ensures last { let next = first_not_below nat_lt ones self.now.directory.now in SomeIff result (0 < next) (next - 1) }
        ensures within { IfSome result (λ block. block < length self.now.directory.now) }
        ensures fewer { IfSome result (λ block. slice_index self.now.directory.now block < ones) }
    {
        OrderedList::new(self.directory)
            .first_not_below(&ones)
            .checked_sub(1)
    }
}

impl<'a> CountedBitmap for PlainBits<'a> {
    fn rank(&self, place: usize) -> usize {
        self.count(place.min(self.len))
    }

    fn select(&self, nth: usize) -> Option<usize> {
        // Asked first, so that a number that no one has is answered without a search.
        if nth == 0 || self.count(self.len) < nth {
            return None;
        }
        let block = self.last_block_below(nth as u64)?;
        let rest = nth - self.directory[block] as usize;
        Some(512 * block + nth_in(block_from(self.words, 8 * block), rest)?)
    }

    fn following(&self, place: usize) -> Option<usize> {
        if place >= self.len {
            return None;
        }
        let word = place / 64;
        let rest = self.words[word] >> (place % 64);
        if rest != 0 {
            return Some(place + rest.trailing_zeros() as usize);
        }
        let next = word + 1;
        // Not `or_else`: the proof would learn nothing of what a closure that calls a method returns.
        match self.first_in_block(next) {
            Some(found) => Some(found),
            None => self.first_from(next / 8 + 1),
        }
    }
}
