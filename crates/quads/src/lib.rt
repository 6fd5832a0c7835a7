// Quads, patterns over them, and the sources that a session asks.
#![tactic(auto)]

mod check;
mod count;
mod pattern;
mod plain;
mod plain_source;
mod quad;
mod source;
mod span;

pub use check::{ListRefusal, check_plain};
pub use count::{MAX_COUNT, one_more};
pub use pattern::{Pattern, Place};
pub use plain::PlainList;
pub use quad::{MAX_ID, Mark, Quad, is_id};
pub use source::QuadSource;
