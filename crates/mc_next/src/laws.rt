//! Laws of sessions.
//!
//! Nothing here runs: each function states a law.
ghost use Rattle.std.specs.Prelude.{◌≡◌, ℕ, List, [], Option, length};
ghost use Rattle.tm_asking.specs.Asking.{AllOpen, NoneCounts};
ghost use Rattle.tm_asking.specs.Turning.{IsAtTables};
ghost use Rattle.mc_next.specs.Works.{StoreState};
ghost use Rattle.mc_next.specs.Runs.{Setting};
ghost use Rattle.mc_next.specs.Sessions.{IsFresh, IsSession, seen};

use crate::session::Session;
use mc_route::Store;
use tm_asking::may_begin;
use tm_client::Client;
use tm_pair::PairTable;

/// A new session with a client at which no request counts, and that was closed for no trustee, is one that begins with what
/// client and devices tell then.
pub fn sessions_begin<P: PairTable<Store>>(
    session: &Session,
    client: &Client<Store, u64, P>,
    tables: &[P],
)
    requires fresh { (limit : ℕ) × IsFresh limit session.now }
    requires home { (openings : ℕ → StoreState) × IsAtTables P.theory openings tables.now client.now.books }
    requires none { NoneCounts client.now.books }
    requires open { AllOpen client.now.books }
    ensures { (s : Setting) (left readings written : Option (List ℕ)) → s.limit ≡ session.now.limit
        → IsSession P.theory.client_view s [] session.now (seen P.theory.client_view client.now.books left readings written)
        (seen P.theory.client_view client.now.books left readings written) client.now.books }
{
    let _ = session;
    may_begin(client, tables);
}
