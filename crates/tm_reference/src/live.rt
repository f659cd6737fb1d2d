//! The live objects of a trustee.
ghost use Rattle.std.specs.Prelude.{◌≡◌, map};
ghost use Rattle.tm_model.specs.State.{kept, with_holds};
ghost use Rattle.tm_reference.specs.Live.{AreRising, IsPosition, IsHeldPosition};

use crate::object::ReferenceObject;
use tm_seq::Entrusted;

/// Where the object of an id stands, if it is live.
pub(crate) fn position<S: Entrusted>(live: &[ReferenceObject<S>], id: u64) -> Option<usize>
    requires { AreRising live.now }
    ensures { IsPosition live.now id result }
{
    for (at, object) in live.iter().enumerate() {
        if object.id == id {
            return Some(at);
        }
    }
    None
}

/// Where the object of an id stands, if a place holds it.
pub(crate) fn held_at<S: Entrusted>(
    live: &[ReferenceObject<S>],
    place: u32,
    id: u64,
) -> Option<usize>
    requires { AreRising live.now }
    ensures { IsHeldPosition live.now place id result }
{
    match position(live, id) {
        Some(at) => {
            let object = &live[at];
            if object.holds_of(place) > 0 {
                Some(at)
            } else {
                None
            }
        }
        None => None,
    }
}

/// Drops the objects whose total is 0.
pub(crate) fn keep<S: Entrusted>(live: &mut Vec<ReferenceObject<S>>)
    ensures { live.new.items ≡ kept live.old.items }
{
    live.retain(|object| !object.is_gone());
}

/// Takes all holds of a place away.
pub(crate) fn drop_holds<S: Entrusted>(live: &mut [ReferenceObject<S>], place: u32)
    ensures { live.new ≡ map (with_holds place 0) live.old }
{
    for object in live.iter_mut() {
        object.set_holds(place, 0);
    }
}
