//! The words behind the program's name, and what they say is to be done.
//!
//! The first word is a command, `run`, `serve` or `load`, and the others are its options, in any order and each at most
//! once. They are cut by `clap`, and the values are read here. Nothing here waits. What words mean is `Says` of
//! specs/Saying.antt.
#![tactic(auto)]

mod commands;
mod limits;
mod load;
mod names;
mod reading;
mod run;
mod serve;
mod settings;
mod stop;

pub use limits::{
    FEWEST_BYTES, FEWEST_CLIENTS, FEWEST_ITEMS, FEWEST_WORKERS, LONGEST_VALUE, MOST_BYTES,
    MOST_CLIENTS, MOST_CONNECTIONS, MOST_OPS, MOST_SEED, MOST_WORKERS, USUAL_BYTES, USUAL_CLIENTS,
    USUAL_OPS, USUAL_SEED, USUAL_TRUSTEES, USUAL_WORKERS,
};
pub use load::Load;
pub use reading::{Words, read_words, says_one_thing};
pub use run::Run;
pub use serve::Serve;
pub use stop::WordsStop;
