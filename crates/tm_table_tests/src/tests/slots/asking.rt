//! What the clients of these tests ask.
ghost use Rattle.std.specs.Prelude.{◌≡◌, ◌≢◌, ℕ, ◌∷◌, [], IsOk};
ghost use Rattle.std.specs.declared.option.Option.TheVariants.{Some};
ghost use Rattle.tm_pair.specs.Views.{new_client};
ghost use Rattle.tm_pair.specs.Theory.{KeepsSides};
ghost use Rattle.tm_table_tests.specs.Sample.{sample, two_asked, one_granted};

use super::less::Less;
use tm_batch::{Batch, Name, Request};
use tm_pair::{Held, PairTable};

/// The object's name.
pub(super) fn the_name() -> Name
    ensures { result ≡ record { id = 1; place = 0 } }
{
    Name { id: 1, place: 0 }
}

fn two() -> Batch<Less>
    ensures requests { result.requests.items ≡ two_asked }
    ensures room { result.room ≡ 0 }
{
    let mut batch = Batch::new(0);
    let _ = batch.push(Request::Apply(the_name(), 5));
    let _ = batch.push(Request::Apply(the_name(), 6));
    batch
}

fn grant() -> Batch<Less>
    ensures requests { result.requests.items ≡ one_granted }
    ensures room { result.room ≡ 0 }
{
    let mut batch = Batch::new(0);
    let _ = batch.push(Request::Grant(the_name(), 1));
    batch
}

/// Client 0, which sent nothing, asks 5 and 6 of the object.
pub(super) fn ask_two<P: PairTable<Less>>(
    table: &mut P,
    side: &mut P::ClientSide,
) -> Result<(), Held<Less>>
    requires mine { P.theory.HasClient table.old side.old }
    requires opening { P.theory.opening table.old ≡ sample (record { by = 4 }) }
    requires first { P.theory.client_view side.old ≡ new_client 0 }
    ensures free { IsOk result }
    ensures out { (P.theory.client_view side.new).out ≡ Some (record { requests = two_asked; room = 0 }) }
    ensures keeps { KeepsSides P.theory table.old table.new side.old side.new }
{
    table.publish(side, two())
}

/// A client whose batch is out asks once more.
pub(super) fn ask_over<P: PairTable<Less>>(
    table: &mut P,
    side: &mut P::ClientSide,
    batch: Batch<Less>,
) -> Result<(), Held<Less>>
    requires mine { P.theory.HasClient table.old side.old }
    requires out { (P.theory.client_view side.old).out ≡ Some (record { requests = two_asked; room = 0 }) }
    ensures out { (P.theory.client_view side.new).out ≡ Some (record { requests = two_asked; room = 0 }) }
    ensures keeps { KeepsSides P.theory table.old table.new side.old side.new }
{
    table.publish(side, batch)
}

/// Client 0, which sent nothing, grants the object to client 1.
pub(super) fn ask_grant<P: PairTable<Less>>(
    table: &mut P,
    side: &mut P::ClientSide,
) -> Result<(), Held<Less>>
    requires mine { P.theory.HasClient table.old side.old }
    requires opening { P.theory.opening table.old ≡ sample (record { by = 4 }) }
    requires first { P.theory.client_view side.old ≡ new_client 0 }
    ensures place { (P.theory.client_view side.new).place ≡ 0 }
    ensures keeps { KeepsSides P.theory table.old table.new side.old side.new }
{
    table.publish(side, grant())
}

/// Client 1 asks for as many gifts as may come.
pub(super) fn ask_gifts<P: PairTable<Less>>(
    table: &mut P,
    side: &mut P::ClientSide,
) -> Result<(), Held<Less>>
    requires mine { P.theory.HasClient table.old side.old }
    requires place { (P.theory.client_view side.old).place ≡ 1 }
    ensures place { (P.theory.client_view side.new).place ≡ 1 }
    ensures keeps { KeepsSides P.theory table.old table.new side.old side.new }
{
    table.publish(side, Batch::new(16))
}
