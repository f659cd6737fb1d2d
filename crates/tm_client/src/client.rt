//! A client.

use crate::books::Books;
use tm_pair::{FitsBatches, PairTable};

/// A client, with its sides at all trustees. `C` is the type of continuations.
#[derive(Drop)]
pub struct Client<S: FitsBatches, C, P: PairTable<S>> {
    pub(crate) books: Books<S, C, P::ClientSide>,
}
