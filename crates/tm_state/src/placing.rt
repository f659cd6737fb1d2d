//! Objects of the build are placed.
ghost use Rattle.std.specs.Prelude.{◌≡◌, ◌<◌, [], length};
ghost use Rattle.tm_objects.specs.Live.{holds_of, total, HasLive};
ghost use Rattle.tm_objects.specs.Stock.{gifts_of, granted};
ghost use Rattle.tm_state.specs.PlacedObjects.{MayPlace, placed};

use tm_batch::{First, MOST_HOLDS, Name};
use tm_objects::Objects;
use tm_seq::Entrusted;

// Places an object of the build: its first holder entrusts it, and each other is given a hold.
pub(crate) fn place_on<S: Entrusted>(objects: &mut Objects<S>, object: First<S>)
    requires { MayPlace object objects.old }
    ensures { objects.new ≡ placed S.Task object objects.old }
{
    // What holds of any stock says that its counts fit.
    objects.known();
    let First { value, holders, .. } = object;
    let places = holders.places();
    let Ok(name) = objects.entrust(places[0], value) else {
        unreachable!()
    };
    for place in &places[1..] {
        give(objects, name, *place);
    }
}

// Grants a hold to a place for which no gift waits, and takes the gift at once.
fn give<S: Entrusted>(objects: &mut Objects<S>, name: Name, to: u32)
    requires live { HasLive objects.old.live name.id (λ o. (holds_of o to < MOST_HOLDS) × (total o < 18446744073709551615)) }
    requires place { to < length objects.old.gifts }
    requires none { gifts_of objects.old.gifts to ≡ [] }
    ensures { objects.new ≡ record objects.old { live = (granted name to objects.old).live } }
{
    objects.grant(name, to);
    objects.take_gift(to);
}
