// Plain bits: the bits in words, and a directory of the ones before each 512 of them. How many bits there are the words do not
// tell.
ghost use Rattle.bitmaps.specs.Counts.{ones_of};
ghost use Rattle.bits.specs.Words.{bit_at, bits_in};
ghost use Rattle.std.specs.Prelude.{◌≡◌, ℕ, ◌+◌, ◌*◌, ◌/◌, ◌<◌, ◌≤◌, false, length, slice_index};

#[derive(Drop)]
pub struct PlainBits<'a> {
    pub(crate) words: &'a [u64],
    pub(crate) directory: &'a [u64],
    pub(crate) len: usize,
    ghost small: { len ≤ 67108864 },
    ghost held: { length words.now ≡ (len + 63) / 64 },
    ghost spare: { (k : ℕ) → len ≤ k → bit_at words.now k ≡ false },
    ghost begun: { length directory.now ≡ (len + 511) / 512 },
    ghost counts: { (b : ℕ) → 512 * b < len → slice_index directory.now b ≡ ones_of (bits_in words.now (512 * b)) },
}
