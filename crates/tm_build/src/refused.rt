//! Why a runtime was not built.

use tm_batch::First;

/// Why a runtime was not built.
#[derive(Drop)]
pub enum BuildRefused<S> {
    /// It may not be built from the config and the list: the list comes back.
    BadConfig(Vec<First<S>>),
    /// There was no memory. The list is gone.
    NoMemory,
}
