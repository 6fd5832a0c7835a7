// A row of numbers of either kind. It is a type of its own around the row of either kind: what serves through `dyn` names one lifetime,
// and once.
ghost use Rattle.bits.specs.StoredRows.{FindsRow, ReadsRow, TakesRow};
ghost use Rattle.numbers.specs.NumberWords.{HasNumbers, plain_number_words, plain_numbers_room, packed_words, packed_numbers_room};
ghost use Rattle.numbers.specs.PackedMeaning.{packed_numbers};
ghost use Rattle.numbers.specs.PackedNumberRows.{packed_read, numbers_packed};
ghost use Rattle.numbers.specs.PlainMeaning.{plain_numbers};
ghost use Rattle.numbers.specs.PlainNumberRows.{plain_numbers_read, numbers_after};
ghost use Rattle.rows.specs.AnyRows.{any_items, kind_of, of_kind, items_at};
ghost use Rattle.std.specs.Prelude.{◌≡◌};

use crate::any_row::AnyRow;
use crate::kinds::RowKind;
use bits::Row;
use numbers::{NumberRow, NumbersFault, PackedNumbers, PlainNumbers};

#[derive(Drop)]
pub struct AnyNumbers<'a> {
    pub row: AnyRow<PlainNumbers<'a>, PackedNumbers<'a>>,
}

impl<'a> AnyNumbers<'a> {
    // The row of this kind at the front of the words, or an empty one if there is none.
    pub fn new(kind: RowKind, words: &'a [u64]) -> AnyNumbers<'a>
        ensures kind { kind_of result.row ≡ kind }
        ensures items { any_items plain_numbers packed_numbers result.row ≡ of_kind kind (items_at numbers_after plain_numbers_read) (items_at numbers_packed packed_read) words.now }
        ensures list { ReadsRow (of_kind kind HasNumbers HasNumbers) (of_kind kind plain_number_words packed_words) words.now (any_items plain_numbers packed_numbers result.row) }
    {
        AnyNumbers {
            row: AnyRow::new(kind, words),
        }
    }

    // How many words the row of this kind at the front of these takes, or the first fault.
    pub fn check(kind: RowKind, words: &'a [u64]) -> Result<usize, NumbersFault>
        ensures answer { result ≡ of_kind kind plain_numbers_read packed_read words.now }
        ensures row { TakesRow (of_kind kind plain_number_words packed_words) (of_kind kind numbers_after numbers_packed) words.now result }
        ensures found { FindsRow (of_kind kind HasNumbers HasNumbers) (of_kind kind plain_number_words packed_words) (of_kind kind plain_numbers_room packed_numbers_room) words.now result }
    {
        AnyRow::<PlainNumbers<'a>, PackedNumbers<'a>>::check(kind, words)
    }
}

impl<'a> Row for AnyNumbers<'a> {
    type Item = u32;

    ghost items = { λ any. any_items plain_numbers packed_numbers any.row };

    fn len(&self) -> usize {
        Row::len(&self.row)
    }

    fn get(&self, place: usize) -> Option<u32> {
        self.row.get(place)
    }
}

impl<'a> NumberRow for AnyNumbers<'a> {
    ghost numbers = { λ any. any_items plain_numbers packed_numbers any.row };

    fn len(&self) -> usize {
        NumberRow::len(&self.row)
    }

    fn number(&self, place: usize) -> Option<u32> {
        self.row.number(place)
    }
}
