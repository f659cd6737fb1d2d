//! What a launch on the desk does to the classes of the store.
//!
//! Nothing here runs: the definitions stand in `specs/`, and each function states a law. A flush or a count over all
//! classes is one launch; its course in the log of the desk's trustee tells what each class was asked, and what it replied.
#![tactic(auto)]

mod laws;

pub use laws::desk_courses_are_replies;
