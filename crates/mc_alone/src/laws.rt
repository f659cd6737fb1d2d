//! One client meets one store.
ghost use Rattle.mc_alone.specs.Laws.{OneClientMeetsOneStore};

use mc_desk_laws::desk_courses_are_replies;
use mc_laws::classes_run_as_one;
use mc_route::{Store, classes_are_found};
use mc_store_laws::{parts_run, values_are_classes};
use tm_laws::{objects_run, one_place_runs};

/// Where a runtime over the store was built with one client, and a session of that client has run, its output is the plain
/// store's for the messages of its input, each command at the moment of its reading: for any number of trustees, whatever
/// the classes that they own, and with `flush_all` and `stats` over all of them.
pub fn one_client_meets_one_store()
    ensures { OneClientMeetsOneStore }
{
    classes_are_found();
    objects_run::<Store>();
    one_place_runs::<Store>();
    values_are_classes();
    parts_run();
    desk_courses_are_replies();
    classes_run_as_one();
}
