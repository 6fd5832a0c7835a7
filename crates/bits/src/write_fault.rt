// Why nothing was written into a row.

#[derive(Clone, Copy, PartialEq, Eq, Debug)]
pub enum WriteFault {
    // The words are too few for the row.
    Short,
    // More than 67,108,864 bits or numbers.
    TooMany,
    // The place is past the end of the row.
    PastEnd,
    // A one is set at this place or after it, and ones are to be set in ascending order.
    OutOfOrder,
    // The width is not from 1 to 32, or the number needs more bits.
    TooWide,
}
