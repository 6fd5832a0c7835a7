// What a row of either kind answers: the row of its kind is asked.
ghost use Rattle.rows.specs.AnyRows.{any_items};

use crate::any_row::AnyRow;
use bitmaps::CountedBitmap;
use bits::Row;

impl<P: Row, C: Row<Item = P::Item>> Row for AnyRow<P, C> {
    type Item = P::Item;

    ghost items = { any_items P.items C.items };

    fn len(&self) -> usize {
        match self {
            AnyRow::Plain(row) => row.len(),
            AnyRow::Compact(row) => row.len(),
        }
    }

    fn get(&self, place: usize) -> Option<P::Item> {
        match self {
            AnyRow::Plain(row) => row.get(place),
            AnyRow::Compact(row) => row.get(place),
        }
    }
}

impl<P: CountedBitmap, C: CountedBitmap> CountedBitmap for AnyRow<P, C> {
    fn rank(&self, place: usize) -> usize {
        match self {
            AnyRow::Plain(row) => row.rank(place),
            AnyRow::Compact(row) => row.rank(place),
        }
    }

    fn select(&self, nth: usize) -> Option<usize> {
        match self {
            AnyRow::Plain(row) => row.select(nth),
            AnyRow::Compact(row) => row.select(nth),
        }
    }

    fn following(&self, place: usize) -> Option<usize> {
        match self {
            AnyRow::Plain(row) => row.following(place),
            AnyRow::Compact(row) => row.following(place),
        }
    }
}
