// Bitmaps that count: rank, select and following.
#![tactic(auto)]

mod bitmap;
mod fault;
mod nth;
mod plain;
mod plain_bitmap;
mod plain_check;
mod plain_read;
mod stretch;

pub use bitmap::CountedBitmap;
pub use fault::BitsFault;
pub use plain::PlainBits;
