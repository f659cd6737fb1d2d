//! Whether requests of a client count.
ghost use Rattle.std.specs.Prelude.{◌≡◌, ◌↔◌, ◌<◌, ◌^◌, length, true};
ghost use Rattle.tm_asking.specs.Asking.{NoneCounts};

use tm_client::Client;
use tm_pair::{FitsBatches, PairTable};

/// Whether no request of a client counts at any of its trustees, of which there are so many: all replies were taken, and no
/// launch lacks its completion. It takes a constant time for each trustee, and no memory.
pub fn none_counts<S: FitsBatches, P: PairTable<S>>(
    client: &Client<S, u64, P>,
    trustees: usize,
) -> bool
    requires many { trustees ≡ length client.now.books.lanes.items }
    requires few { trustees < 2 ^ 32 }
    ensures { (result ≡ true) ↔ NoneCounts client.now.books }
{
    for trustee in 0..trustees {
        if client.counting(trustee as u32) != 0 {
            return false;
        }
    }
    true
}
