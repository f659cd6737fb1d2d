//! The same calls at a table for many threads, on one thread.
ghost use Rattle.std.specs.Prelude.{◌≡◌, IfOk};
ghost use Rattle.tm_pair.specs.Theory.{IsNewTable};
ghost use Rattle.tm_toggle.specs.Shared.{shared_theory};
ghost use Rattle.tm_table_tests.specs.Sample.{less_kind, sample};

use super::less::Less;
use super::start::{TWO_CLIENTS, first};
use super::{gift_goes, one_place, round_goes};
use std::alloc::{AllocError, Global};
use std::test::Fail;
use tm_toggle::{SharedClient, SharedTable, SharedTrustee};

/// The table of trustee 0, with its sides.
fn start(
    alloc: Global,
) -> Result<
    (
        SharedTable<Less>,
        Vec<SharedClient<Less>>,
        SharedTrustee<Less>,
    ),
    AllocError,
>
    ensures { IfOk result (λ r. IsNewTable (shared_theory (less_kind (λ v. v.by))) (sample (record { by = 4 })) r.0 r.1.items r.2) }
{
    SharedTable::new(alloc, 0, TWO_CLIENTS, &first(alloc)?)
}

#[test]
fn one_place_of_a_shared_table_call_by_call(rt: HostRuntime) -> Result<(), Fail> {
    let (mut table, mut clients, mut trustee) = start(rt.alloc())?;
    let mut client = clients.remove(0);
    one_place(&rt, &mut table, &mut client, &mut trustee);
    Ok(())
}

#[test]
fn a_round_of_nothing_comes_back_through_a_shared_table(rt: HostRuntime) -> Result<(), Fail> {
    let (mut table, mut clients, mut trustee) = start(rt.alloc())?;
    let mut client = clients.remove(0);
    round_goes(&rt, &mut table, &mut client, &mut trustee);
    Ok(())
}

#[test]
fn a_gift_goes_through_a_shared_table(rt: HostRuntime) -> Result<(), Fail> {
    let (mut table, mut clients, mut trustee) = start(rt.alloc())?;
    let mut one = clients.remove(1);
    let mut zero = clients.remove(0);
    gift_goes(&rt, &mut table, &mut zero, &mut one, &mut trustee);
    Ok(())
}
