// Rows of numbers below 2^32 in lent words.
#![tactic(auto)]

mod fault;
mod packed;
mod packed_read;
mod packed_row;
mod plain;
mod plain_read;
mod plain_row;
mod row;
mod width;

pub use fault::NumbersFault;
pub use packed::PackedNumbers;
pub use plain::PlainNumbers;
pub use row::NumberRow;
pub use width::width_of;
