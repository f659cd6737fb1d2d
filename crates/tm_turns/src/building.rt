//! Everything of one runtime on one thread is built.
ghost use Rattle.std.specs.Prelude.{map, IfOk, IfErr};
ghost use Rattle.tm_model.specs.Opening.{IsBuildable};
ghost use Rattle.tm_build.specs.Refusing.{IsRefusal};
ghost use Rattle.tm_turns.specs.Making.{HasBuilt};

use crate::making::{clients_of, nested_of, trustees_of};
use crate::opened::{Opened, open_all};
use crate::turns::Turns;
use std::alloc::{AllocError, Global};
use tm_batch::{Config, First};
use tm_build::{BuildRefused, is_buildable, split};
use tm_client::Trust;
use tm_pair::FitsTable;

/// Builds it from what it may be built from.
fn make<S: FitsTable, C: Drop>(
    alloc: Global,
    config: Config,
    first: Vec<First<S>>,
) -> Result<(Turns<S, C>, Vec<Vec<Trust>>), AllocError>
    requires { IsBuildable config first.items }
    ensures { IfOk result (λ r. HasBuilt S.kind config first.items r.0 (map (λ l. l.items) r.1.items)) }
{
    let counts = Vec::with_capacity(alloc, config.trustees as usize)?;
    let opened = open_all(alloc, config, &first)?;
    let Opened {
        tables,
        homes,
        mut seats,
    } = opened;
    let (clients, trusts) = clients_of(alloc, config, &first, &mut seats)?;
    let nested = nested_of(alloc, config, &first)?;
    let placed = split(alloc, config.trustees, first)?;
    let trustees = trustees_of(alloc, config, homes, seats, nested, placed)?;
    let turns = Turns {
        clients,
        tables,
        trustees,
        counts,
    };
    Ok((turns, trusts))
}

impl<S: FitsTable, C: Drop> Turns<S, C> {
    /// Builds all clients, tables and trustees from a config and a list of objects; and the trusts of each client, in the
    /// order of the list. `clients` is how many clients there are: their numbers are their places, and trustee `t` has the
    /// place `clients + t` where it asks a greater trustee.
    ///
    /// All room is reserved here: no later call allocates. Refused where a runtime may not be built from them, and the list
    /// comes back ([`is_buildable`] has the rule), or for want of memory, and the list is gone.
    pub fn build(
        alloc: Global,
        config: Config,
        first: Vec<First<S>>,
    ) -> Result<(Turns<S, C>, Vec<Vec<Trust>>), BuildRefused<S>>
        ensures built { IfOk result (λ r. HasBuilt S.kind config first.items r.0 (map (λ l. l.items) r.1.items)) }
        ensures refused { IfErr result (λ refused. IsRefusal config first.items refused) }
    {
        if !is_buildable(config, &first) {
            return Err(BuildRefused::BadConfig(first));
        }
        let Ok(built) = make(alloc, config, first) else {
            return Err(BuildRefused::NoMemory);
        };
        Ok(built)
    }
}
