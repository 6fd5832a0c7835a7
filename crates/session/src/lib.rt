// Sessions: eight cursors over any quad source.
#![tactic(auto)]

mod answer;
mod call;
mod count;
mod cursor;
mod refusal;
mod roll;
mod session;
mod table;

pub use call::{Ask, Call};
pub use refusal::Refusal;
pub use session::Session;
pub use table::CURSORS;
