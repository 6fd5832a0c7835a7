// Reading packed numbers, one by one.
ghost use Rattle.numbers.specs.NumbersIn.{number_in};
ghost use Rattle.numbers.specs.PackedMeaning.{packed_numbers};
ghost use Rattle.std.specs.Prelude.{◌≡◌, ◌<◌};

use crate::packed::PackedNumbers;
use crate::row::NumberRow;
use bits::Row;

impl<'a> PackedNumbers<'a> {
    // The number at a place of the row. It lies in one word or in two.
    pub(crate) fn at(&self, place: usize) -> u32
        requires { place < self.now.len }
        ensures { result ≡ number_in self.now.words.now self.now.width place }
    {
        let bit = place * self.width;
        let word = bit / 64;
        let shift = bit % 64;
        let mask = (1u64 << self.width) - 1;
        let low = self.words[word] >> shift;
        if shift + self.width <= 64 {
            return (low & mask) as u32;
        }
        let high = self.words[word + 1] << (64 - shift);
        ((high | low) & mask) as u32
    }
}

impl<'a> Row for PackedNumbers<'a> {
    type Item = u32;

    ghost items = { packed_numbers };

    #[tactic(auto, using(crate::proofs::PackedPlaces::places))]
    fn len(&self) -> usize {
        self.len
    }

    #[tactic(auto, using(crate::proofs::PackedPlaces::places))]
    fn get(&self, place: usize) -> Option<u32> {
        if place >= self.len {
            return None;
        }
        Some(self.at(place))
    }
}

impl<'a> NumberRow for PackedNumbers<'a> {
    ghost numbers = { packed_numbers };

    fn len(&self) -> usize {
        Row::len(self)
    }

    fn number(&self, place: usize) -> Option<u32> {
        self.get(place)
    }
}
