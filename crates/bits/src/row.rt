// The trait of rows: whatever means a list of items, bits or numbers, and gives them by their places. Reading rows from words stands
// on it. Since it has a type of items, it does not serve through `dyn`: there a row of bits is asked as a `BitRow`.
ghost use Rattle.std.specs.List.{slice_get};
ghost use Rattle.std.specs.Prelude.{◌≡◌, List, length};

pub trait Row {
    type Item;

    // The items of the row.
    ghost items: { Self → List Self.Item };

    // How many they are.
    fn len(&self) -> usize
        ensures { result ≡ length (items self.now) };

    // The item at the place, counted from 0, or none past the end.
    fn get(&self, place: usize) -> Option<Self::Item>
        ensures { result ≡ slice_get (items self.now) place };
}
