// Bare bits: words, and how many of their bits count, which the slice does not tell.
ghost use Rattle.std.specs.Prelude.{◌*◌, ◌≤◌, length};

#[derive(Drop)]
pub struct BareBits<'a> {
    pub(crate) words: &'a [u64],
    pub(crate) len: usize,
    ghost within: { len ≤ 64 * length words.now },
}
