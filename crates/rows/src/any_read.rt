// Reading a row of a kind from words that may go on after it.
ghost use Rattle.bits.specs.StoredRows.{FindsRow, ReadsRow, TakesRow};
ghost use Rattle.rows.specs.AnyRows.{any_items, kind_of, of_kind, items_at};
ghost use Rattle.std.specs.Prelude.{◌≡◌};

use crate::any_row::AnyRow;
use crate::kinds::RowKind;
use bits::StoredRow;

impl<'a, P: StoredRow<'a>, C: StoredRow<'a, Item = P::Item>> AnyRow<P, C> {
    // The row of this kind at the front of the words, or an empty one if there is none.
    pub fn new(kind: RowKind, words: &'a [u64]) -> AnyRow<P, C>
        ensures kind { kind_of result ≡ kind }
        ensures items { any_items P.Row.items C.Row.items result ≡ of_kind kind (items_at P.items_in P.reading) (items_at C.items_in C.reading) words.now }
        ensures list { ReadsRow (of_kind kind P.HasRow C.HasRow) (of_kind kind P.words_of C.words_of) words.now (any_items P.Row.items C.Row.items result) }
    {
        match kind {
            RowKind::Plain => AnyRow::Plain(P::new(words)),
            RowKind::Compact => AnyRow::Compact(C::new(words)),
        }
    }
}

impl<'a, P: StoredRow<'a>, C: StoredRow<'a, Item = P::Item, Fault = P::Fault>> AnyRow<P, C> {
    // How many words the row of this kind at the front of these takes, or the first fault.
    pub fn check(kind: RowKind, words: &'a [u64]) -> Result<usize, P::Fault>
        ensures answer { result ≡ of_kind kind P.reading C.reading words.now }
        ensures row { TakesRow (of_kind kind P.words_of C.words_of) (of_kind kind P.items_in C.items_in) words.now result }
        ensures found { FindsRow (of_kind kind P.HasRow C.HasRow) (of_kind kind P.words_of C.words_of) (of_kind kind P.room_of C.room_of) words.now result }
    {
        match kind {
            RowKind::Plain => P::check(words),
            RowKind::Compact => C::check(words),
        }
    }
}
