// Why words are no row of bits.

// An enum of its own beside the faults of numbers: each family of rows has its own, and a larger whole would take it in by `From`.
#[derive(Clone, Copy, PartialEq, Eq, Debug)]
pub enum BitsFault {
    // The words end before the row does.
    Short,
    // More than 67,108,864 bits.
    TooManyBits,
    // More runs than bits.
    TooManyRuns,
    // A bit after the last one of the row is set.
    SpareBitSet,
    // A directory word or a run that the bits do not call for.
    WrongContent,
}
