// Checking the directory of a row of plain bits.
ghost use Rattle.bitmaps.specs.PlainRows.{tells_ones};
ghost use Rattle.std.specs.Prelude.{◌≡◌, ◌+◌, ◌*◌, ◌<◌, ◌≤◌, length};

use crate::stretch::{block_from, ones_in};

// Whether each word of the directory is the number of ones before its 512 bits.
pub(crate) fn tells_ones(words: &[u64], directory: &[u64]) -> bool
    requires few { length words.now ≤ 1048576 }
    requires begun { 8 * length directory.now < length words.now + 8 }
    ensures { result ≡ tells_ones words.now directory.now }
{
    let mut ones = 0;
    for (block, before) in directory.iter().enumerate() {
        if *before != ones {
            return false;
        }
        ones += ones_in(block_from(words, 8 * block)) as u64;
    }
    true
}
