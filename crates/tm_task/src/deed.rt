//! What was done with the tasks of a client, for contracts alone.
ghost use Rattle.std.specs.Prelude.{◌≡◌, [], ◌∷◌, ◌++◌, map};
ghost use Rattle.tm_task.specs.declared.deed.Deed.TheVariants.{Added, Started, Asked, Resumed, Turned};

use crate::task::Move;
use std::marker::Brand;
use tm_client::{Got, Turn};
use tm_ghost::{GhostList, Items};
use tm_seq::Entrusted;

/// One thing that was done. No program makes one: contracts speak of lists of them.
#[derive(Drop)]
pub enum Deed<S: Entrusted, T, O> {
    /// A task came, behind the others.
    Added(T),
    /// The task of that number was started, and made this move.
    Started(u64, Move<S, T, O>),
    /// The client accepted that the task of that number asks the trust of an index to run an operation.
    Asked(u64, u32, S::Op),
    /// The task of that number went on with an answer, and made this move.
    Resumed(u64, Got<S>, Move<S, T, O>),
    /// The client made its turn at a trustee, which said what it did.
    Turned(u32, Turn),
}

/// Then a task came.
pub(crate) fn added<S: Entrusted, T, O>(
    told: &GhostList<Deed<S, T, O>>,
    task: &T,
) -> GhostList<Deed<S, T, O>>
    ensures { result.items ≡ told.now.items ++ Added task.now ∷ [] }
{
    pick_added::<S, T, O, Brand>(told, task)
}

fn pick_added<S: Entrusted, T, O, E: Items<Deed<S, T, O>>>(
    _told: &GhostList<Deed<S, T, O>>,
    _task: &T,
) -> GhostList<Deed<S, T, O>>
    ensures { result.items ≡ E.items }
{
    GhostList::of::<E>()
}

/// Then a task was started.
pub(crate) fn started<S: Entrusted, T, O>(
    told: &GhostList<Deed<S, T, O>>,
    number: u64,
    next: &Move<S, T, O>,
) -> GhostList<Deed<S, T, O>>
    ensures { result.items ≡ told.now.items ++ Started number next.now ∷ [] }
{
    pick_started::<S, T, O, Brand>(told, number, next)
}

fn pick_started<S: Entrusted, T, O, E: Items<Deed<S, T, O>>>(
    _told: &GhostList<Deed<S, T, O>>,
    _number: u64,
    _next: &Move<S, T, O>,
) -> GhostList<Deed<S, T, O>>
    ensures { result.items ≡ E.items }
{
    GhostList::of::<E>()
}

/// Then the client accepted what a task asks.
pub(crate) fn asked<S: Entrusted, T, O>(
    told: &GhostList<Deed<S, T, O>>,
    number: u64,
    trust: u32,
    op: &S::Op,
) -> GhostList<Deed<S, T, O>>
    ensures { result.items ≡ told.now.items ++ Asked number trust op.now ∷ [] }
{
    pick_asked::<S, T, O, Brand>(told, number, trust, op)
}

fn pick_asked<S: Entrusted, T, O, E: Items<Deed<S, T, O>>>(
    _told: &GhostList<Deed<S, T, O>>,
    _number: u64,
    _trust: u32,
    _op: &S::Op,
) -> GhostList<Deed<S, T, O>>
    ensures { result.items ≡ E.items }
{
    GhostList::of::<E>()
}

/// An answer, for a later deed.
pub(crate) fn answer_of<S: Entrusted>(got: &Got<S>) -> GhostList<Got<S>>
    ensures { result.items ≡ got.now ∷ [] }
{
    pick_answer::<S, Brand>(got)
}

fn pick_answer<S: Entrusted, E: Items<Got<S>>>(_got: &Got<S>) -> GhostList<Got<S>>
    ensures { result.items ≡ E.items }
{
    GhostList::of::<E>()
}

/// Then a task went on with an answer.
pub(crate) fn resumed<S: Entrusted, T, O>(
    told: &GhostList<Deed<S, T, O>>,
    number: u64,
    answer: &GhostList<Got<S>>,
    next: &Move<S, T, O>,
) -> GhostList<Deed<S, T, O>>
    ensures { result.items ≡ told.now.items ++ map (λ got. Resumed number got next.now) answer.now.items }
{
    pick_resumed::<S, T, O, Brand>(told, number, answer, next)
}

fn pick_resumed<S: Entrusted, T, O, E: Items<Deed<S, T, O>>>(
    _told: &GhostList<Deed<S, T, O>>,
    _number: u64,
    _answer: &GhostList<Got<S>>,
    _next: &Move<S, T, O>,
) -> GhostList<Deed<S, T, O>>
    ensures { result.items ≡ E.items }
{
    GhostList::of::<E>()
}

/// Then the client made its turn at a trustee.
pub(crate) fn turned<S: Entrusted, T, O>(
    told: &GhostList<Deed<S, T, O>>,
    trustee: u32,
    turn: Turn,
) -> GhostList<Deed<S, T, O>>
    ensures { result.items ≡ told.now.items ++ Turned trustee turn ∷ [] }
{
    pick_turned::<S, T, O, Brand>(told, trustee, turn)
}

fn pick_turned<S: Entrusted, T, O, E: Items<Deed<S, T, O>>>(
    _told: &GhostList<Deed<S, T, O>>,
    _trustee: u32,
    _turn: Turn,
) -> GhostList<Deed<S, T, O>>
    ensures { result.items ≡ E.items }
{
    GhostList::of::<E>()
}
