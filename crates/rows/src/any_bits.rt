// A counted bitmap of either kind. It is a type of its own around the row of either kind: what serves through `dyn` names one lifetime,
// and once.
ghost use Rattle.bitmaps.specs.BitRows.{HasBitRow};
ghost use Rattle.bitmaps.specs.PlainMeaning.{plain_bits};
ghost use Rattle.bitmaps.specs.PlainRows.{plain_words, plain_room, plain_bits_in, plain_read};
ghost use Rattle.bits.specs.StoredRows.{FindsRow, ReadsRow, TakesRow};
ghost use Rattle.rows.specs.AnyRows.{any_items, kind_of, of_kind, items_at};
ghost use Rattle.runs.specs.RunMeaning.{run_bits};
ghost use Rattle.runs.specs.RunRows.{run_read, run_bits_in};
ghost use Rattle.runs.specs.RunWords.{run_words, run_room};
ghost use Rattle.std.specs.Prelude.{◌≡◌, length};

use crate::any_row::AnyRow;
use crate::kinds::RowKind;
use bitmaps::{BitsFault, CountedBitmap, PlainBits};
use bits::{BitRow, Row};
use runs::RunBits;

#[derive(Drop)]
pub struct AnyBits<'a> {
    pub row: AnyRow<PlainBits<'a>, RunBits<'a>>,
}

impl<'a> AnyBits<'a> {
    // The row of this kind at the front of the words, or an empty one if there is none.
    pub fn new(kind: RowKind, words: &'a [u64]) -> AnyBits<'a>
        ensures kind { kind_of result.row ≡ kind }
        ensures items { any_items plain_bits run_bits result.row ≡ of_kind kind (items_at plain_bits_in plain_read) (items_at run_bits_in run_read) words.now }
        ensures list { ReadsRow (of_kind kind HasBitRow HasBitRow) (of_kind kind plain_words run_words) words.now (any_items plain_bits run_bits result.row) }
    {
        AnyBits {
            row: AnyRow::new(kind, words),
        }
    }

    // How many words the row of this kind at the front of these takes, or the first fault.
    pub fn check(kind: RowKind, words: &'a [u64]) -> Result<usize, BitsFault>
        ensures answer { result ≡ of_kind kind plain_read run_read words.now }
        ensures row { TakesRow (of_kind kind plain_words run_words) (of_kind kind plain_bits_in run_bits_in) words.now result }
        ensures found { FindsRow (of_kind kind HasBitRow HasBitRow) (of_kind kind plain_words run_words) (of_kind kind (λ bits. plain_room (length bits)) run_room) words.now result }
    {
        AnyRow::<PlainBits<'a>, RunBits<'a>>::check(kind, words)
    }
}

impl<'a> Row for AnyBits<'a> {
    type Item = bool;

    ghost items = { λ any. any_items plain_bits run_bits any.row };

    fn len(&self) -> usize {
        Row::len(&self.row)
    }

    fn get(&self, place: usize) -> Option<bool> {
        self.row.get(place)
    }
}

impl<'a> BitRow for AnyBits<'a> {
    ghost bits = { λ any. any_items plain_bits run_bits any.row };

    fn len(&self) -> usize {
        BitRow::len(&self.row)
    }

    fn bit(&self, place: usize) -> Option<bool> {
        self.row.bit(place)
    }
}

impl<'a> CountedBitmap for AnyBits<'a> {
    fn rank(&self, place: usize) -> usize {
        self.row.rank(place)
    }

    fn select(&self, nth: usize) -> Option<usize> {
        self.row.select(nth)
    }

    fn following(&self, place: usize) -> Option<usize> {
        self.row.following(place)
    }
}
