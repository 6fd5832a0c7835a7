// Rows of which the kind is known only at run time.
#![tactic(auto)]

mod any_answers;
mod any_bits;
mod any_numbers;
mod any_read;
mod any_row;
mod bit_answers;
mod kinds;
mod number_answers;

pub use any_bits::AnyBits;
pub use any_numbers::AnyNumbers;
pub use any_row::AnyRow;
pub use kinds::RowKind;
