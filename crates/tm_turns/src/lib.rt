//! Clients and trustees on one thread, which take turns.
//!
//! [`Turns::build`] makes them from a config and a list of objects, [`Turns::serve`] is one trustee's turn, and
//! [`Turns::run`] makes turns until nothing moves. [`Turns::close`] serves what was asked and ends everything. All is
//! proved from the clauses of clients, tables and trustees.
//! [`one_good_core`] states what the sides of one trustee show together, [`launches_are_latched`] and [`asks_are_tied`]
//! what holds of its launched work.
#![tactic(auto)]

mod building;
mod closing;
mod laws;
mod making;
mod opened;
mod turns;

pub use laws::{asks_are_tied, launches_are_latched};
pub use turns::{Turns, calls_keep, deeds_keep, driving_ends, one_good_core};
