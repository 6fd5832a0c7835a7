// What a row of numbers of either kind answers: the row of its kind is asked.
ghost use Rattle.rows.specs.AnyRows.{any_items};

use crate::any_row::AnyRow;
use numbers::NumberRow;

impl<P: NumberRow, C: NumberRow> NumberRow for AnyRow<P, C> {
    ghost numbers = { any_items P.numbers C.numbers };

    fn len(&self) -> usize {
        match self {
            AnyRow::Plain(row) => row.len(),
            AnyRow::Compact(row) => row.len(),
        }
    }

    fn number(&self, place: usize) -> Option<u32> {
        match self {
            AnyRow::Plain(row) => row.number(place),
            AnyRow::Compact(row) => row.number(place),
        }
    }
}
