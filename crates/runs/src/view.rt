// Bits told by their runs of ones: the words of the runs, and how many bits there are, which the runs do not tell.
ghost use Rattle.runs.specs.Runs.{runs_fit};
ghost use Rattle.std.specs.Prelude.{◌≡◌, ◌≤◌, true};

// A row of bits that has ones at the places that its runs cover.
#[derive(Drop)]
pub struct RunBits<'a> {
    pub(crate) runs: &'a [u64],
    pub(crate) len: usize,
    ghost small: { len ≤ 67108864 },
    ghost lawful: { runs_fit 0 len runs.now ≡ true },
}
