//! A trustee's rules as a program: what is answered, what may come, and the state that it leaves.
//!
//! It is plain and slow, so that a reader checks it against the rules by eye. Its contracts are the
//! definitions of `tm_model`.
#![tactic(auto)]

mod live;
mod object;
mod opening;
mod place;
mod reference_trustee;
mod refused;
mod resumed;
mod resuming;
mod rows;
mod sending;
mod work;

pub use place::Leaving;
pub use reference_trustee::ReferenceTrustee;
pub use refused::{NotResumed, NotSent, NotServed};
pub use resumed::Resumed;
