// The trait of rows that lie in words: each kind says which words a list of items takes, and reads its rows from words.
ghost use Rattle.bits.specs.StoredRows.{TakesRow, FindsRow, ReadsRow, items_read, room_taken};
ghost use Rattle.std.specs.Prelude.{◌≡◌, ℕ, List, [], Result, IfOk, length};

use crate::row::Row;

// The most bits or numbers that a row may have.
pub const MAX_LEN: usize = 67_108_864;

pub trait StoredRow<'a>: Row + Drop + Sized {
    // Why words are no row of this kind.
    type Fault: Drop;

    // Which lists of items have a row of this kind.
    ghost HasRow: { List Self.Item → Type 0 };

    // The words of the row of such a list, and how many they are.
    ghost words_of: { List Self.Item → List ℕ };

    ghost room_of: { List Self.Item → ℕ };

    // The items that words with a row of this kind at their front tell.
    ghost items_in: { List ℕ → List Self.Item };

    // How many words the row at the front of these takes, or the first fault.
    ghost reading: { List ℕ → Result ℕ Self.Fault };

    // The row at the front of the words and how many of them it takes, or the first fault.
    fn read(words: &'a [u64]) -> Result<(Self, usize), Self::Fault>
        ensures answer { room_taken result ≡ reading words.now }
        ensures items { IfOk result (λ read. Self.items read.0 ≡ items_in words.now) }
        ensures row { TakesRow words_of items_in words.now (room_taken result) }
        ensures found { FindsRow HasRow words_of room_of words.now (room_taken result) }
        ensures told { ReadsRow HasRow words_of words.now (items_in words.now) };

    // A row of no items.
    fn empty() -> Self
        ensures { Self.items result ≡ [] };

    // How many words the row at the front of these takes, or the first fault.
    final fn check(words: &'a [u64]) -> Result<usize, Self::Fault>
        ensures answer { result ≡ reading words.now }
        ensures row { TakesRow words_of items_in words.now result }
        ensures found { FindsRow HasRow words_of room_of words.now result }
    {
        Self::read(words).map(|(_, room)| room)
    }

    // The row at the front of the words, or an empty one if there is none.
    final fn new(words: &'a [u64]) -> Self
        ensures items { Self.items result ≡ items_read items_in (reading words.now) words.now }
        ensures list { ReadsRow HasRow words_of words.now (Self.items result) }
    {
        match Self::read(words) {
            Ok((row, _)) => row,
            Err(_) => Self::empty(),
        }
    }

    // Each list that has a row takes so many words.
    ghost room: { (items : List Self.Item) → HasRow items → room_of items ≡ length (words_of items) };
}
