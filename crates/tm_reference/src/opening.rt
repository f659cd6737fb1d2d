//! The state in which a trustee opens.
ghost use Rattle.std.specs.Prelude.{◌≡◌, ◌+◌, ◌==◌, nat_lt, [], ◌∷◌, ◌++◌, map, cond, IfOk, OnOk};
ghost use Rattle.std.specs.List.{list_any, range_with_len};
ghost use Rattle.std.proofs.Math.ListN.{replicate};
ghost use Rattle.tm_model.specs.State.{no_place};
ghost use Rattle.tm_model.specs.Opening.{is_named, ids_at, opened, placed_on, opening_of};
ghost use Rattle.tm_reference.specs.Opens.{all_above};

use crate::object::ReferenceObject;
use crate::place::ReferencePlace;
use crate::reference_trustee::{IdsAbove, ReferenceTrustee};
use std::alloc::{AllocError, Global};
use tm_batch::{Config, First};
use tm_seq::Entrusted;

impl<S: Entrusted> ReferenceTrustee<S> {
    /// The trustee of a number, with the objects of the build that are placed on it.
    pub fn open(
        alloc: Global,
        config: Config,
        number: u32,
        first: Vec<First<S>>,
    ) -> Result<ReferenceTrustee<S>, AllocError>
        ensures { IfOk result (λ trustee. trustee ≡ opening_of number config first.items) }
    {
        let count = u64::from(config.clients) + u64::from(number);
        let places = no_places(alloc, count)?;
        let above = ids_above(alloc, config, number, first.as_slice())?;
        let live = open_objects(alloc, number, count, first)?;
        Ok(ReferenceTrustee {
            config,
            number,
            above,
            ids: live.len() as u64,
            tickets: 0,
            places,
            live,
        })
    }
}

// Places that nothing came to.
fn no_places<S: Entrusted>(alloc: Global, count: u64) -> Result<Vec<ReferencePlace<S>>, AllocError>
    ensures { IfOk result (λ places. places.items ≡ replicate count no_place) }
{
    let mut places = Vec::new(alloc);
    for _ in 0..count {
        places.push(ReferencePlace::new(alloc))?;
    }
    Ok(places)
}

// The ids that a trustee holds at each other one, none where its number is not greater.
fn ids_above<S>(
    alloc: Global,
    config: Config,
    number: u32,
    first: &[First<S>],
) -> Result<Vec<IdsAbove>, AllocError>
    ensures { IfOk result (λ above. above.items ≡ all_above number config first.now) }
{
    let place = u64::from(config.clients) + u64::from(number);
    let mut above = Vec::new(alloc);
    for trustee in 0..config.trustees {
        let held = ids_beyond(alloc, number, trustee, place, first)?;
        above.push(held)?;
    }
    Ok(above)
}

// The ids at a trustee that a place holds, none where its number is not greater.
fn ids_beyond<S>(
    alloc: Global,
    number: u32,
    trustee: u32,
    place: u64,
    first: &[First<S>],
) -> Result<IdsAbove, AllocError>
    ensures { IfOk result (λ held. held ≡ cond (nat_lt number trustee) (ids_at trustee place first.now) []) }
{
    if number < trustee {
        Ok(IdsAbove {
            ids: ids_of(alloc, trustee, place, first)?,
        })
    } else {
        Ok(IdsAbove {
            ids: Vec::new(alloc),
        })
    }
}

// The ids at a trustee of the objects that name a place.
fn ids_of<S>(
    alloc: Global,
    trustee: u32,
    place: u64,
    first: &[First<S>],
) -> Result<Vec<u64>, AllocError>
    ensures { IfOk result (λ ids. ids.items ≡ ids_at trustee place first.now) }
{
    let mut ids = Vec::new(alloc);
    let mut placed = 0;
    for object in first {
        if object.trustee != trustee {
            continue;
        }
        placed += 1;
        let is_named = names(object.holders.places(), place);
        note(&mut ids, placed, is_named)?;
    }
    Ok(ids)
}

// Notes an id where its object names the place.
fn note(ids: &mut Vec<u64>, id: u64, is_named: bool) -> Result<(), AllocError>
    ensures { OnOk result (ids.new.items ≡ ids.old.items ++ cond is_named (id ∷ []) []) }
{
    if is_named {
        ids.push(id)?;
    }
    Ok(())
}

// Whether a place is among some holders.
fn names(holders: &[u32], place: u64) -> bool
    ensures { result ≡ list_any (λ h. h == place) holders.now }
{
    holders.iter().any(|holder| u64::from(*holder) == place)
}

// The objects that are placed on a trustee, with ids from 1.
fn open_objects<S: Entrusted>(
    alloc: Global,
    number: u32,
    count: u64,
    first: Vec<First<S>>,
) -> Result<Vec<ReferenceObject<S>>, AllocError>
    ensures { IfOk result (λ live. live.items ≡ opened count 1 (placed_on number first.items)) }
{
    let mut live = Vec::new(alloc);
    for object in first {
        if object.trustee == number {
            let id = live.len() as u64 + 1;
            let opened = open_object(alloc, id, count, object)?;
            live.push(opened)?;
        }
    }
    Ok(live)
}

// One of them, with one hold of each holder.
fn open_object<S: Entrusted>(
    alloc: Global,
    id: u64,
    count: u64,
    first: First<S>,
) -> Result<ReferenceObject<S>, AllocError>
    ensures { IfOk result (λ o. o ≡ record { id = id; value = first.value; holds = map (λ c. cond (is_named c first) 1 0) (range_with_len 0 count); works = [] }) }
{
    let mut holds = Vec::new(alloc);
    for place in 0..count {
        let hold = hold_of(names(first.holders.places(), place));
        holds.push(hold)?;
    }
    Ok(ReferenceObject {
        id,
        value: first.value,
        holds,
        works: Vec::new(alloc),
    })
}

// One hold of a holder, and none of another place.
fn hold_of(is_holder: bool) -> u32
    ensures { result ≡ cond is_holder 1 0 }
{
    if is_holder { 1 } else { 0 }
}
