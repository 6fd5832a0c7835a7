// The trait of counted bitmaps: bit rows that also count their ones.
ghost use Rattle.bitmaps.specs.Counts.{rank_of, select_of, following_of};
ghost use Rattle.std.specs.Prelude.{◌≡◌};

use bits::BitRow;

pub trait CountedBitmap: BitRow {
    // How many ones stand among the first bits, so many of them; past the end, all ones.
    fn rank(&self, place: usize) -> usize
        ensures { result ≡ rank_of (Self.BitRow.bits self.now) place };

    // The place of the one of this number, counted from 1, or none if there is none.
    fn select(&self, nth: usize) -> Option<usize>
        ensures { result ≡ select_of (Self.BitRow.bits self.now) nth };

    // The first place not below this one with a one, or none if there is none.
    fn following(&self, place: usize) -> Option<usize>
        ensures { result ≡ following_of (Self.BitRow.bits self.now) place };
}
