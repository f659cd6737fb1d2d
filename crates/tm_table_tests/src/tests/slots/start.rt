//! A table with one object, which client 0 holds.
ghost use Rattle.std.specs.Prelude.{◌≡◌, IfOk};
ghost use Rattle.tm_pair.specs.Theory.{IsNewTable};
ghost use Rattle.tm_pair.specs.Plain.{plain_theory};
ghost use Rattle.tm_table_tests.specs.Sample.{less_kind, sample, sample_first};

use super::less::Less;
use std::alloc::{AllocError, Global};
use tm_batch::{Config, First, Holders};
use tm_pair::{PlainClient, PlainTable, PlainTrustee};

/// How the runtime is built.
pub(super) const TWO_CLIENTS: Config = Config {
    clients: 2,
    trustees: 2,
    objects: 4,
    trusts: 4,
    last_id: 9,
};

/// The object of the build, 4 to be taken away.
pub(super) fn first(alloc: Global) -> Result<Vec<First<Less>>, AllocError>
    ensures { IfOk result (λ first. first.items ≡ sample_first (record { by = 4 })) }
{
    let holders = Holders::new(vec![in alloc; 0]?);
    Ok(vec![in alloc;
        First {
            trustee: 0,
            value: Less { by: 4 },
            holders
        },
    ]?)
}

/// The table of trustee 0, with its sides.
pub(super) fn start(
    alloc: Global,
) -> Result<(PlainTable<Less>, Vec<PlainClient<Less>>, PlainTrustee<Less>), AllocError>
    ensures { IfOk result (λ r. IsNewTable (plain_theory (less_kind (λ v. v.by))) (sample (record { by = 4 })) r.0 r.1.items r.2) }
{
    PlainTable::new(alloc, 0, TWO_CLIENTS, &first(alloc)?)
}
