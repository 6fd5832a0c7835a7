// Ordered entries in lent memory, of any kind that has a total order.
#![tactic(auto)]

mod list;
mod order;

pub use list::OrderedList;
pub use order::{Ordered, OrderedByOrd};
