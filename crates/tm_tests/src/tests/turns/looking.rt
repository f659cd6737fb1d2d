//! What the places of these tests find.
ghost use Rattle.std.specs.Prelude.{◌≡◌, [], ◌∷◌, IsTrue};
ghost use Rattle.tm_model.specs.Holds.{ended_in};
ghost use Rattle.tm_pair.specs.Calls.{Collects};
ghost use Rattle.tm_tests.specs.Driving.{adds_and_releases, EndsNothing, MayBye, IsSeated, KeepsOthers};

use tm_batch::{Answer, AnswerBatch};
use tm_pair::{Collected, PairTable};
use tm_seq::{Counter, CounterReply};

/// Whether the sum is 5 and the counter was given up, and nothing else came, by the third entry of the log.
fn is_sum(came: &AnswerBatch<Counter>) -> bool
    ensures { IsTrue result → ended_in (came.now ∷ []) ≡ 0 }
{
    let sum = matches!(
        came.answers.as_slice(),
        [Answer::Replied(CounterReply::Is(5)), Answer::Released]
    );
    sum && came.gifts.is_empty() && came.completions.is_empty() && came.front == 3
}

/// Whether the sum was found.
fn found_sum(found: Collected<Counter>) -> bool
    ensures { IsTrue result → EndsNothing found }
{
    match found {
        Collected::Answers(came) => is_sum(&came),
        _ => false,
    }
}

/// A place collects at the greater trustee.
fn collect<P: PairTable<Counter>>(tables: &mut [P], side: &mut P::ClientSide) -> Collected<Counter>
    requires { IsSeated P.theory tables.old 1 side.old }
    ensures collects { Collects (P.theory.client_view side.old) (P.theory.client_view side.new) result }
    ensures mine { IsSeated P.theory tables.new 1 side.new }
    ensures others { KeepsOthers P.theory tables.old tables.new (P.theory.client_view side.old).place }
{
    tables[1].collect(side)
}

/// Whether two objects were entrusted, with ids that follow the counter's, and with names of two places.
fn are_two_names(came: &AnswerBatch<Counter>) -> bool {
    match came.answers.as_slice() {
        [Answer::Entrusted(one), Answer::Entrusted(other)] => {
            one.id == 2 && other.id == 3 && one.place != other.place
        }
        _ => false,
    }
}

/// A client collects at the greater trustee. Whether two names came.
pub(super) fn collect_names<P: PairTable<Counter>>(
    tables: &mut [P],
    side: &mut P::ClientSide,
) -> bool
    requires { IsSeated P.theory tables.old 1 side.old }
{
    match collect(tables, side) {
        Collected::Answers(came) => are_two_names(&came),
        _ => false,
    }
}

/// Whether the sum is that of both places.
fn is_greater_sum(came: &AnswerBatch<Counter>) -> bool {
    matches!(
        came.answers.as_slice(),
        [Answer::Replied(CounterReply::Is(12))]
    )
}

/// A place collects at the greater trustee. Whether the sum of what both places added came.
pub(super) fn collect_greater_sum<P: PairTable<Counter>>(
    tables: &mut [P],
    side: &mut P::ClientSide,
) -> bool
    requires { IsSeated P.theory tables.old 1 side.old }
{
    match collect(tables, side) {
        Collected::Answers(came) => is_greater_sum(&came),
        _ => false,
    }
}

/// Client 0, to which nothing came, collects at the greater trustee. Whether the sum came.
pub(super) fn collect_sum<P: PairTable<Counter>>(tables: &mut [P], side: &mut P::ClientSide) -> bool
    requires mine { IsSeated P.theory tables.old 1 side.old }
    requires sent { (P.theory.client_view side.old).sent ≡ adds_and_releases }
    requires got { (P.theory.client_view side.old).got ≡ [] }
    ensures place { (P.theory.client_view side.new).place ≡ (P.theory.client_view side.old).place }
    ensures may { IsTrue result → MayBye (P.theory.client_view side.new) }
    ensures mine { IsSeated P.theory tables.new 1 side.new }
    ensures others { KeepsOthers P.theory tables.old tables.new (P.theory.client_view side.old).place }
{
    found_sum(collect(tables, side))
}
