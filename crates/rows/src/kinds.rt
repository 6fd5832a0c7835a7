// The kinds of rows.

#[derive(Clone, Copy, PartialEq, Eq, Debug)]
pub enum RowKind {
    // Bits with a directory, or one word for each number.
    Plain,
    // Runs of ones, or the numbers at the least width.
    Compact,
}
