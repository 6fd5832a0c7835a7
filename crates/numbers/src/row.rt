// The trait of number rows: whatever means a list of numbers below 2^32. This is what can be asked of a row of numbers through `dyn`,
// whatever its kind; the trait of rows of any item, on which reading from words stands, is `Row`.
ghost use Rattle.std.specs.List.{slice_get};
ghost use Rattle.std.specs.Prelude.{◌≡◌, ℕ, List, length};

pub trait NumberRow {
    // The numbers of the row.
    ghost numbers: { Self → List ℕ };

    // How many they are.
    fn len(&self) -> usize
        ensures { result ≡ length (numbers self.now) };

    // The number at the place, counted from 0, or none past the end.
    fn number(&self, place: usize) -> Option<u32>
        ensures { result ≡ slice_get (numbers self.now) place };
}
