// The ordered list: a lent slice of entries, searched by halving.
ghost use Rattle.ordered.specs.Order.{ascends, first_not_below};
ghost use Rattle.std.specs.Prelude.{◌≡◌, ◌≤◌, true, length};

use crate::order::Ordered;

#[derive(Clone, Copy)]
pub struct OrderedList<'a, T> {
    pub entries: &'a [T],
}

impl<'a, T: Ordered> OrderedList<'a, T> {
    pub fn new(entries: &'a [T]) -> OrderedList<'a, T>
        ensures { result.entries.now ≡ entries.now }
    {
        OrderedList { entries }
    }

    // The place of the first entry that is not below the key, by halving. On a slice that does not ascend it is some place
    // within the slice or its length.
    pub fn first_not_below(&self, key: &T) -> usize
        ensures within { result ≤ length self.now.entries.now }
        ensures place { ascends T.below self.now.entries.now ≡ true → result ≡ first_not_below T.below key.now self.now.entries.now }
    {
        self.entries.partition_point(|entry| entry.is_below(key))
    }
}
