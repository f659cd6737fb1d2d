//! The rule of the table, and what each step tells.
ghost use Rattle.tm_toggle.specs.Ruled.{opening_by, Delegates};
ghost use Rattle.tm_toggle.specs.Plays.{first_view, publishes, collects, sees, lays, lifts, answers, settles, with_client, new_client, client_note, trustee_note, noted, spent, compares, follows};

use crate::content::Content;
use crate::sides::Key;
use crate::view::View;
use atomic_table::{Join, Play, Split, TableRule};
use std::marker::PhantomData;
use tm_pair::{FitsBatches, Since};

/// The rule: words, slots at home and all views show one good core.
pub struct Order<S> {
    kind: PhantomData<S>,
}

impl<S: FitsBatches> TableRule<Content<S>, View<S>, Key<S>> for Order<S> {
    ghost holds = { λ key. Delegates S.kind (opening_by key) };

    ghost first = { first_view };
}

/// A client stores its request word.
pub struct PublishStep<S> {
    kind: PhantomData<S>,
}

impl<S: FitsBatches> Play<Content<S>, View<S>> for PublishStep<S> {
    ghost then = { publishes S.kind };
}

/// A client loads its response word.
pub struct CollectStep<S> {
    kind: PhantomData<S>,
}

impl<S: FitsBatches> Play<Content<S>, View<S>> for CollectStep<S> {
    ghost then = { collects S.kind };
}

/// The trustee loads a request word.
pub struct SeeStep<S> {
    kind: PhantomData<S>,
}

impl<S: FitsBatches> Play<Content<S>, View<S>> for SeeStep<S> {
    ghost then = { sees S.kind };
}

/// The trustee lays a slot back.
pub struct Lays;

impl<S: FitsBatches> Play<Content<S>, View<S>> for Lays {
    ghost then = { lays };
}

/// The trustee lifts a slot again.
pub struct Lifts;

impl<S: FitsBatches> Play<Content<S>, View<S>> for Lifts {
    ghost then = { lifts };
}

/// The trustee stores a response word.
pub struct AnswerStep<S, E> {
    kind: PhantomData<(S, E)>,
}

impl<S: FitsBatches, E: Since<S, S::Op, S::Reply, S::Task>> Play<Content<S>, View<S>>
    for AnswerStep<S, E> {
    ghost then = { answers S.kind E.resumes };
}

/// A client's seat takes its slot.
pub struct Settles;

impl<S: FitsBatches> Play<Content<S>, View<S>> for Settles {
    ghost then = { settles };
}

/// The trustee's seat makes a client's.
pub struct Makes;

impl<S: FitsBatches> Split<View<S>> for Makes {
    ghost left = { with_client };

    ghost right = { new_client };
}

/// A note of what a client has seen.
pub struct ClientNote<S> {
    kind: PhantomData<S>,
}

impl<S: FitsBatches> Split<View<S>> for ClientNote<S> {
    ghost left = { λ v. v };

    ghost right = { client_note };
}

/// A note of the trustee's log.
pub struct TrusteeNote<S> {
    kind: PhantomData<S>,
}

impl<S: FitsBatches> Split<View<S>> for TrusteeNote<S> {
    ghost left = { λ v. v };

    ghost right = { trustee_note };
}

/// A seat takes a note in.
pub struct TakesNote<S> {
    kind: PhantomData<S>,
}

impl<S: FitsBatches> Join<View<S>> for TakesNote<S> {
    ghost both = { noted };

    ghost spent = { spent };
}

/// A client learns what the log that it noted has to do with its own.
pub struct Compare<S> {
    kind: PhantomData<S>,
}

impl<S: FitsBatches> Play<Content<S>, View<S>> for Compare<S> {
    ghost then = { compares };
}

/// The trustee learns that the log that it noted begins its own.
pub struct Follow<S> {
    kind: PhantomData<S>,
}

impl<S: FitsBatches> Play<Content<S>, View<S>> for Follow<S> {
    ghost then = { follows };
}
