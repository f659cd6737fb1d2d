//! The entries that launched work makes.
ghost use Rattle.std.specs.Prelude.{◌≡◌, []};

use tm_ghost::GhostList;
use tm_model::Entry;
use tm_seq::Entrusted;

/// The entries that launched work has made, for contracts alone, and how many they are.
#[derive(Drop)]
pub struct Made<S: Entrusted> {
    /// The entries, in order.
    pub entries: GhostList<Entry<S>>,
    /// How many were made since the count was begun, or `u64::MAX` where that is greater.
    pub count: u64,
}
