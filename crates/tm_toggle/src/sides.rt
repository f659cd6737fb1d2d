//! The sides of a table for many threads.

use crate::content::Content;
use crate::fitting::Shareable;
use crate::view::View;
use atomic_table::Seat;
use tm_batch::{Config, First};
use tm_ghost::GhostList;
use tm_pair::FitsBatches;

/// How a table was built.
#[derive(Drop)]
pub struct Key<S: FitsBatches> {
    pub(crate) number: u32,
    pub(crate) config: Config,
    pub(crate) first: GhostList<First<S>>,
}

/// A client's side of a [`SharedTable`](crate::SharedTable): a seat that knows what the side stands
/// for, the request word, and whether a batch is out.
pub struct SharedClient<S: Shareable> {
    pub(crate) seat: Seat<Content<S>, View<S>>,
    pub(crate) place: u32,
    pub(crate) word: u64,
    pub(crate) out: bool,
}

/// The trustee's side of a [`SharedTable`](crate::SharedTable): a seat that knows what the side
/// stands for, and the response words.
pub struct SharedTrustee<S: Shareable> {
    pub(crate) seat: Seat<Content<S>, View<S>>,
    pub(crate) words: Vec<u64>,
}

/// As a derived one, but proved here: a derived one is proved in each crate that drops a side.
impl<S: Shareable> Drop for SharedClient<S> {
    fn drop(self) {
        let SharedClient {
            seat: _,
            place: _,
            word: _,
            out: _,
        } = self;
    }
}

/// As a derived one, but proved here.
impl<S: Shareable> Drop for SharedTrustee<S> {
    fn drop(self) {
        let SharedTrustee { seat: _, words: _ } = self;
    }
}
