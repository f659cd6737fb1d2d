//! What passes between a client and a trustee: requests, answers, and batches of them.
//!
//! A client sends a [`Batch`] of at most [`MOST_REQUESTS`] requests, and gets one [`AnswerBatch`]
//! back. All of it is held inline, so a batch has its full size however few requests are in it, and
//! nothing here allocates or waits.
//!
//! A kind whose batches are passed on implements [`Fits`], and one that makes a kind with another
//! before it [`FitsBeside`]: facts on sizes, which are computed.
#![tactic(auto)]

mod batch;
mod config;
mod fits;
mod limits;
mod message;
mod slots;

pub use batch::{Batch, Room};
pub use config::{Config, First, Holders};
pub use fits::{Fits, FitsAnswers, FitsBeside};
pub use limits::{
    FEWEST_TRUSTEES, MOST_CLIENTS, MOST_COMPLETIONS, MOST_GIFTS, MOST_HOLDS, MOST_OBJECTS,
    MOST_REQUESTS, MOST_ROOM, MOST_TRUSTEES, MOST_TRUSTS, WINDOW,
};
pub use message::{Answer, AnswerBatch, Completion, Name, Refusal, Request};
