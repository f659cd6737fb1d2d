//! A table of slots between clients and a trustee, for whoever holds one of its sides.
//!
//! [`PairTable`] says what the calls of any such table do, whether its sides are on one thread or on
//! many. [`PlainTable`] is such a table whose sides are all on one thread. [`once_round`] is one round
//! of an empty batch, through any table. At a table that is [`Meet`], two sides tell what their logs
//! have to do with each other.
#![tactic(auto)]

mod fits_batches;
mod fits_table;
mod meet;
mod meeting;
mod moves;
mod opened;
mod place;
mod plain;
mod round;
mod table;

pub use fits_batches::FitsBatches;
pub use fits_table::FitsTable;
pub use meet::Meet;
pub use moves::Move;
pub use plain::{PlainClient, PlainTable, PlainTrustee};
pub use round::{answer_nothing, ask_nothing, once_round};
pub use table::{Collected, Held, PairTable, Since};
