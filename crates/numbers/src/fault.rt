// Why words are no row of numbers. Each family of rows has a fault of its own, and what is made of several would take them
// in by `From`: so this is no part of the fault of the rows of bits.

#[derive(Clone, Copy, PartialEq, Eq, Debug)]
pub enum NumbersFault {
    // The words end before the row does.
    Short,
    // More than 67,108,864 numbers.
    TooManyNumbers,
    // A width that is not from 1 to 32.
    WidthOutOfRange,
    // A bit after the last number of the row is set.
    SpareBitSet,
    // A number not below 2^32, or a width larger than the numbers need.
    WrongContent,
}
