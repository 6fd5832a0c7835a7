// What a row of bits of either kind answers: the row of its kind is asked.
ghost use Rattle.rows.specs.AnyRows.{any_items};

use crate::any_row::AnyRow;
use bits::BitRow;

impl<P: BitRow, C: BitRow> BitRow for AnyRow<P, C> {
    ghost bits = { any_items P.bits C.bits };

    fn len(&self) -> usize {
        match self {
            AnyRow::Plain(row) => row.len(),
            AnyRow::Compact(row) => row.len(),
        }
    }

    fn bit(&self, place: usize) -> Option<bool> {
        match self {
            AnyRow::Plain(row) => row.bit(place),
            AnyRow::Compact(row) => row.bit(place),
        }
    }
}
