// The trait of bit rows: whatever means a list of bits. This is what can be asked of a row of bits through `dyn`, whatever its kind;
// the trait of rows of any item, on which reading from words stands, is `Row`.
ghost use Rattle.std.specs.List.{slice_get};
ghost use Rattle.std.specs.Prelude.{◌≡◌, Bool, List, length};

pub trait BitRow {
    // The bits of the row.
    ghost bits: { Self → List Bool };

    // How many they are.
    fn len(&self) -> usize
        ensures { result ≡ length (bits self.now) };

    // The bit at the place, counted from 0, or none past the end.
    fn bit(&self, place: usize) -> Option<bool>
        ensures { result ≡ slice_get (bits self.now) place };
}
