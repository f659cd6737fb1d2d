//! Trustees on threads of their own. So far: what a trustee's thread does.
#![tactic(auto)]

mod serving;

pub use serving::serve_loop;
