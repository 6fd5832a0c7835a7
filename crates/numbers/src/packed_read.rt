// Reading a row of packed numbers from words that may go on after it.
ghost use Rattle.bits.specs.StoredRows.{room_taken};
ghost use Rattle.numbers.specs.NumberWords.{HasNumbers, packed_words, packed_numbers_room};
ghost use Rattle.numbers.specs.NumbersIn.{largest_of};
ghost use Rattle.numbers.specs.PackedMeaning.{packed_numbers};
ghost use Rattle.numbers.specs.PackedNumberRows.{packed_read, numbers_packed};
ghost use Rattle.numbers.specs.Rooms.{packed_takes};
ghost use Rattle.std.specs.Prelude.{◌≡◌, IfOk};

use crate::fault::NumbersFault;
use crate::packed::PackedNumbers;
use crate::width::width_of;
use bits::{BareBits, MAX_LEN, StoredRow};

const MAX_WIDTH: u64 = 32;

impl<'a> PackedNumbers<'a> {
    // The largest number of the row, or 0 if there is none.
    fn largest(&self) -> u32
        ensures { result ≡ largest_of (packed_numbers self.now) }
    {
        (0..self.len).map(|place| self.at(place)).max().unwrap_or(0)
    }

    // The row at the front of the words, and how many of them it takes, or the first fault.
    #[tactic(auto, unfolding(crate::specs::PackedNumberRows::packed_read))]
    fn parse(words: &'a [u64]) -> Result<(PackedNumbers<'a>, usize), NumbersFault>
        ensures room { room_taken result ≡ packed_read words.now }
        ensures numbers { IfOk result (λ read. packed_numbers read.0 ≡ numbers_packed words.now) }
    {
        let [count, width, rest @ ..] = words else {
            return Err(NumbersFault::Short);
        };
        if *count > MAX_LEN as u64 {
            return Err(NumbersFault::TooManyNumbers);
        }
        if !(1..=MAX_WIDTH).contains(width) {
            return Err(NumbersFault::WidthOutOfRange);
        }
        let len = *count as usize;
        let width = *width as usize;
        let bits = width * len;
        let content = rest.get(..bits.div_ceil(64)).ok_or(NumbersFault::Short)?;
        if !BareBits::new(content, bits).is_spare_zero() {
            return Err(NumbersFault::SpareBitSet);
        }
        let row = PackedNumbers {
            words: content,
            width,
            len,
        };
        if width > width_of(row.largest()) as usize {
            return Err(NumbersFault::WrongContent);
        }
        Ok((row, 2 + content.len()))
    }
}

impl<'a> StoredRow<'a> for PackedNumbers<'a> {
    type Fault = NumbersFault;

    ghost HasRow = { HasNumbers };

    ghost words_of = { packed_words };

    ghost room_of = { packed_numbers_room };

    ghost items_in = { numbers_packed };

    ghost reading = { packed_read };

    // By `parse`, so that the laws of reading are proved at one exit: the check does not find them at each exit of `parse`.
    fn read(words: &'a [u64]) -> Result<(PackedNumbers<'a>, usize), NumbersFault> {
        PackedNumbers::parse(words)
    }

    fn empty() -> PackedNumbers<'a> {
        PackedNumbers {
            words: &[],
            width: 1,
            len: 0,
        }
    }

    ghost room = { packed_takes };
}
