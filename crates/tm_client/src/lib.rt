//! A client of the trustees: its trusts, its requests that wait, and the answers that came.
//!
//! A [`Client`] has a side at each trustee's table. A call as [`Client::apply_then`] accepts a request
//! and a continuation, or refuses it and hands both back. [`Client::turn`] publishes the requests that wait at one
//! trustee, or takes in the answers that came. [`Client::next`] hands out each continuation with
//! the answer to its own request, and that of a launch with its completion. [`Client::new`] reserves all room; no
//! other call allocates, and none waits.
//!
//! Whatever the table, a turn tells what the side has seen of the trustee's log (`Sees`, specs/Turns.antt): each
//! answer is that of its own request's entry there, and what the client holds is live.
//! The laws of a client's side ([`collects_bring`] and its kin) speak of no client and hold for every kind.
#![tactic(auto)]

mod answers;
mod asks;
mod books;
mod client;
mod due;
mod finishing;
mod giving_up;
mod holds;
mod lane;
mod laws;
mod marking;
mod opening;
mod post;
mod taking;
mod trust;
mod turn;
mod turning;

pub use answers::{Arrival, Came, Got, Refused, Turn, Why};
pub use books::Books;
pub use client::Client;
pub use holds::{Hold, Holds};
pub use lane::{Lane, Unfinished, Waiting};
pub use laws::{
    answers_are_of_entries, byes_may_go, collects_bring, collects_end, held_is_live, rest_is_held,
    tickets_tell, waits_may_go,
};
pub use trust::Trust;
