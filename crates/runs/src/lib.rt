// Bits told by their runs of ones.
#![tactic(auto)]

mod run;
mod run_bitmap;
mod run_read;
mod view;

pub use view::RunBits;
