//! What a member believes of the others: which update overrides which, and the table of the other
//! members with the update that holds for each.
//!
//! | New | overrides | by rules 1 where | by rules 2 where |
//! |---|---|---|---|
//! | Alive i | Alive j, Suspect j | i > j | i > j |
//! | Suspect i | Suspect j | i > j | i > j |
//! | Suspect i | Alive j | i >= j | i >= j |
//! | Confirm i | Alive j, Suspect j | always | i >= j |
//! | any i | Confirm j | never | i > j |
#![tactic(auto)]

mod deal;
mod laws;
mod overriding;
mod table;
mod tally;

pub use deal::Deal;
pub use laws::{order_is_of_no_matter, rows_are_tops};
pub use overriding::overrides;
pub use table::{Heard, ROWS_MAX, Row, Table};
