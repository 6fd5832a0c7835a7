// Reading plain numbers, one by one.
ghost use Rattle.numbers.specs.PlainMeaning.{plain_numbers};

use crate::plain::PlainNumbers;
use crate::row::NumberRow;
use bits::Row;

impl<'a> Row for PlainNumbers<'a> {
    type Item = u32;

    ghost items = { plain_numbers };

    fn len(&self) -> usize {
        self.words.len()
    }

    fn get(&self, place: usize) -> Option<u32> {
        let word = self.words.get(place)?;
        Some(*word as u32)
    }
}

impl<'a> NumberRow for PlainNumbers<'a> {
    ghost numbers = { plain_numbers };

    fn len(&self) -> usize {
        Row::len(self)
    }

    fn number(&self, place: usize) -> Option<u32> {
        self.get(place)
    }
}
