//! The trustee's thread.
ghost use Rattle.tm_seq.specs.Counting.{counter_kind};
ghost use Rattle.tm_toggle.specs.Shared.{shared_theory};
ghost use Rattle.tm_trustee.specs.Tables.{IsReady};

use std::rt::Clock;
use std::sync::Wait;
use tm_base::FreeGate;
use tm_runtime::serve_loop;
use tm_seq::Counter;
use tm_toggle::SharedTable;
use tm_trustee::Trustee;

/// The trustee, and the tables of all trustees.
#[derive(Drop)]
pub(crate) struct Home {
    pub(crate) tables: Vec<SharedTable<Counter>>,
    pub(crate) trustee: Trustee<Counter, SharedTable<Counter>>,
}

/// The trustee's thread. How many requests it ran.
pub(crate) fn serve<R: Wait + Clock>(rt: &R, home: Home) -> u64
    requires { IsReady (shared_theory counter_kind) counter_kind home.tables.items home.trustee }
{
    let Home {
        mut tables,
        mut trustee,
    } = home;
    serve_loop(rt, &mut trustee, &mut tables, &FreeGate, None);
    trustee.requests_run()
}
