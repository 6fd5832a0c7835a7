// Packed numbers: so many bits for each, one after another across words. How many numbers there are the words do not tell.
ghost use Rattle.std.specs.Prelude.{◌*◌, ◌≤◌, length};

#[derive(Drop)]
pub struct PackedNumbers<'a> {
    pub(crate) words: &'a [u64],
    pub(crate) width: usize,
    pub(crate) len: usize,
    ghost wide: { 1 ≤ width },
    ghost narrow: { width ≤ 32 },
    ghost small: { len ≤ 67108864 },
    ghost within: { width * len ≤ 64 * length words.now },
}
