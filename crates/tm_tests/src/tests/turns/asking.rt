//! What the places of these tests ask.
ghost use Rattle.std.specs.Prelude.{◌≡◌, ◌≢◌, ℕ, [], ◌∷◌, ◌<◌, IsTrue};
ghost use Rattle.tm_batch.specs.declared.message.Request.TheVariants.{Bye};
ghost use Rattle.tm_pair.specs.Views.{new_client};
ghost use Rattle.tm_tests.specs.Driving.{adds_and_releases, adds_more, entrusts_two, MayBye, IsSeated, KeepsOthers};

use tm_batch::{Batch, Name, Request};
use tm_pair::PairTable;
use tm_seq::{Counter, CounterOp};

/// Adds 5 to the counter, and gives it up.
fn sum() -> Batch<Counter>
    ensures requests { result.requests.items ≡ adds_and_releases }
    ensures room { result.room ≡ 0 }
{
    let name = Name { id: 1, place: 0 };
    let mut batch = Batch::new(0);
    let _ = batch.push(Request::Apply(name, CounterOp::Add(5)));
    let _ = batch.push(Request::Release(name));
    batch
}

fn bye() -> Batch<Counter>
    ensures requests { result.requests.items ≡ Bye ∷ [] }
    ensures room { result.room ≡ 0 }
{
    let mut batch = Batch::new(0);
    let _ = batch.push(Request::Bye);
    batch
}

/// Adds 7 to the counter.
fn more() -> Batch<Counter>
    ensures requests { result.requests.items ≡ adds_more }
    ensures room { result.room ≡ 0 }
{
    let mut batch = Batch::new(0);
    let _ = batch.push(Request::Apply(Name { id: 1, place: 0 }, CounterOp::Add(7)));
    batch
}

/// The place of the lesser trustee, which sent nothing, asks the greater one to add more. Whether it could.
pub(super) fn ask_more<P: PairTable<Counter>>(tables: &mut [P], side: &mut P::ClientSide) -> bool
    requires mine { IsSeated P.theory tables.old 1 side.old }
    requires first { P.theory.client_view side.old ≡ new_client 1 }
    ensures free { IsTrue result }
    ensures place { (P.theory.client_view side.new).place ≡ 1 }
    ensures mine { IsSeated P.theory tables.new 1 side.new }
    ensures others { KeepsOthers P.theory tables.old tables.new 1 }
{
    tables[1].publish(side, more()).is_ok()
}

/// Two counters, of 1 and of 2.
fn two() -> Batch<Counter>
    ensures requests { result.requests.items ≡ entrusts_two }
    ensures room { result.room ≡ 0 }
{
    let mut batch = Batch::new(0);
    let _ = batch.push(Request::Entrust(Counter { value: 1 }));
    let _ = batch.push(Request::Entrust(Counter { value: 2 }));
    batch
}

/// Client 0, which sent nothing, entrusts two counters to the greater trustee. Whether it could.
pub(super) fn entrust_two<P: PairTable<Counter>>(tables: &mut [P], side: &mut P::ClientSide) -> bool
    requires mine { IsSeated P.theory tables.old 1 side.old }
    requires first { P.theory.client_view side.old ≡ new_client 0 }
    ensures free { IsTrue result }
    ensures mine { IsSeated P.theory tables.new 1 side.new }
    ensures others { KeepsOthers P.theory tables.old tables.new 0 }
{
    tables[1].publish(side, two()).is_ok()
}

/// Client 0, which sent nothing, asks the greater trustee for a sum, and gives the counter up. Whether it could.
pub(super) fn ask_sum<P: PairTable<Counter>>(tables: &mut [P], side: &mut P::ClientSide) -> bool
    requires mine { IsSeated P.theory tables.old 1 side.old }
    requires first { P.theory.client_view side.old ≡ new_client 0 }
    ensures free { IsTrue result }
    ensures place { (P.theory.client_view side.new).place ≡ 0 }
    ensures sent { (P.theory.client_view side.new).sent ≡ adds_and_releases }
    ensures got { (P.theory.client_view side.new).got ≡ [] }
    ensures mine { IsSeated P.theory tables.new 1 side.new }
    ensures others { KeepsOthers P.theory tables.old tables.new 0 }
{
    tables[1].publish(side, sum()).is_ok()
}

/// A place says `Bye` at the trustee of a number. Whether it could.
pub(super) fn say_bye<P: PairTable<Counter>>(
    tables: &mut [P],
    number: usize,
    side: &mut P::ClientSide,
) -> bool
    requires mine { IsSeated P.theory tables.old number side.old }
    requires may { MayBye (P.theory.client_view side.old) }
    ensures place { (P.theory.client_view side.new).place ≡ (P.theory.client_view side.old).place }
    ensures mine { IsSeated P.theory tables.new number side.new }
    ensures others { KeepsOthers P.theory tables.old tables.new (P.theory.client_view side.old).place }
    ensures elsewhere { (n : ℕ) (other : P.ClientSide) → n ≢ number → IsSeated P.theory tables.old n other → IsSeated P.theory tables.new n other }
{
    tables[number].publish(side, bye()).is_ok()
}
