//! What may move between threads, of every kind whose values, operations, replies and tasks may. Nothing runs:
//! the check proves each function.

use tm_batch::{AnswerBatch, Batch};
use tm_pair::{FitsTable, PlainClient, PlainTable, PlainTrustee};
use tm_seq::Entrusted;
use tm_state::TrusteeState;
use tm_trustee::Trustee;

fn is_send<T: Send>(_it: &T) {}

fn trustee_moves<S: FitsTable + Send + Entrusted<Op: Send, Reply: Send, Task: Send>>(
    it: &Trustee<S, PlainTable<S>>,
) {
    is_send(it);
}

fn state_moves<S: Send + Entrusted<Op: Send, Reply: Send, Task: Send>>(it: &TrusteeState<S>) {
    is_send(it);
}

fn table_moves<S: FitsTable + Send + Entrusted<Op: Send, Reply: Send, Task: Send>>(
    it: &PlainTable<S>,
) {
    is_send(it);
}

fn client_side_moves<S: Send + Entrusted<Op: Send, Reply: Send, Task: Send>>(it: &PlainClient<S>) {
    is_send(it);
}

fn trustee_side_moves<S: Send + Entrusted<Op: Send, Reply: Send, Task: Send>>(
    it: &PlainTrustee<S>,
) {
    is_send(it);
}

fn batch_moves<S: Send + Entrusted<Op: Send, Reply: Send, Task: Send>>(it: &Batch<S>) {
    is_send(it);
}

fn answers_move<S: Send + Entrusted<Op: Send, Reply: Send, Task: Send>>(it: &AnswerBatch<S>) {
    is_send(it);
}
