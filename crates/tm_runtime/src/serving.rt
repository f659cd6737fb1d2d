//! A trustee's thread.
ghost use Rattle.std.specs.Prelude.{◌≡◌, Some, slice_get};
ghost use Rattle.tm_model.specs.Lists.{IsPrefix};
ghost use Rattle.tm_trustee.specs.Serving.{ups_of};
ghost use Rattle.tm_trustee.specs.Tables.{IsReady};
ghost use Rattle.tm_trustee.specs.Turn.{HasEnded};
ghost use Rattle.tm_runtime.specs.Serving.{HasServed};

use std::rt::Clock;
use std::sync::Wait;
use tm_base::Gate;
use tm_pair::{FitsBatches, PairTable};
use tm_trustee::{Served, Trustee};
use tm_waiting::{Waiting, Waker};

/// Makes serving turns ([`Trustee::serve_turn`]) until the trustee has ended: until all places below have said `Bye`, and it
/// has said it above. `tables[t]` is trustee `t`'s table.
///
/// After a turn that moved nothing the thread waits, a while at most, as [`Waiting`] says: on the waker of the trustee's
/// place if there is one, else it lets others run. It may not return, since a client may never say `Bye`. Beside what the
/// operations, the tasks and the gate do it takes no memory.
pub fn serve_loop<S: FitsBatches, P: PairTable<S>, G: Gate, R: Wait + Clock>(
    rt: &R,
    trustee: &mut Trustee<S, P>,
    tables: &mut [P],
    gate: &G,
    waker: Option<&Waker>,
)
    requires ready { IsReady P.theory S.kind tables.old trustee.old }
    ensures served { HasServed P.theory S.kind tables.old trustee.old tables.new trustee.new }
    ensures ready { IsReady P.theory S.kind tables.new trustee.new }
    // Its log only grows.
    ensures grows { IsPrefix (P.theory.trustee_view trustee.old.side).log (P.theory.trustee_view trustee.new.side).log }
    // By its log all places have said `Bye`, and each greater trustee has answered its own.
    ensures ended { (table : P) → slice_get tables.new trustee.new.number ≡ Some table
        → HasEnded (P.theory.opening table) (P.theory.trustee_view trustee.new.side) (ups_of P.theory trustee.new) }
{
    let mut waiting = Waiting::of_trustee();
    for _ in rt.forever() {
        match trustee.serve_turn(tables, gate) {
            Served::Moved(_) => waiting.go_on(rt, waker, true),
            Served::Quiet => waiting.go_on(rt, waker, false),
            Served::Ended => return,
        }
    }
}
