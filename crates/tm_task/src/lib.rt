//! Continuations that can be called, and tasks that ask one request after another.
//!
//! A continuation that is [`Then`] is called with the answer to its own request: [`run_ready`] does so for the answer that
//! came first. A [`Task`] makes a move when it starts and one at each answer: it applies an operation to an object, or
//! it is done. [`Tasks`] drives many of them through one client, a turn at a time.
//!
//! For contracts alone `Tasks` keeps all that was done, in order ([`Deed`]). What each task is at follows from that list, and
//! so does all that the client was asked (`Runs`, specs/Runs.antt).
#![tactic(auto)]

mod deed;
mod stage;
mod task;
mod tasks;
mod then;
mod turning;

pub use deed::Deed;
pub use stage::Stage;
pub use task::{Move, Task};
pub use tasks::Tasks;
pub use then::{Then, run_ready};
pub use turning::Progress;
