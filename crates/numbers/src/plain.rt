// Plain numbers: one word for each.
ghost use Rattle.numbers.specs.NumberWords.{each_below};
ghost use Rattle.std.specs.Prelude.{◌≡◌, ◌≤◌, true, length};

#[derive(Drop)]
pub struct PlainNumbers<'a> {
    pub(crate) words: &'a [u64],
    ghost small: { length words.now ≤ 67108864 },
    ghost below: { each_below 32 words.now ≡ true },
}
