//! The turns of these tests.
ghost use Rattle.std.specs.Prelude.{ℕ, ◌+◌};
ghost use Rattle.tm_tests.specs.Driving.{IsDriven, IsSeated, KeepsOthers};

use tm_base::Gate;
use tm_pair::PairTable;
use tm_seq::Counter;
use tm_trustee::{Served, Trustee};

/// A turn of a trustee.
pub(super) fn turn<P: PairTable<Counter>, G: Gate>(
    trustee: &mut Trustee<Counter, P>,
    tables: &mut [P],
    gate: &G,
) -> Served
    requires { (n : ℕ) × IsDriven P.theory tables.old n trustee.old }
    ensures ready { (n : ℕ) → IsDriven P.theory tables.old n trustee.old → IsDriven P.theory tables.new n trustee.new }
    ensures sides { (n : ℕ) (other : P.ClientSide) → IsDriven P.theory tables.old n trustee.old → IsSeated P.theory tables.old n other → IsSeated P.theory tables.new n other }
    ensures others { (n : ℕ) → IsDriven P.theory tables.old n trustee.old → KeepsOthers P.theory tables.old tables.new (1 + n) }
{
    trustee.serve_turn(tables, gate)
}
