// Rows in lent words, and bits in them.
#![tactic(auto)]

mod bare;
mod bare_row;
mod bit_row;
mod row;
mod stored;
mod write_fault;

pub use bare::BareBits;
pub use bit_row::BitRow;
pub use row::Row;
pub use stored::{MAX_LEN, StoredRow};
pub use write_fault::WriteFault;
