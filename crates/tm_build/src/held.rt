//! What a place holds at first.
ghost use Rattle.std.specs.Prelude.{◌≡◌, ◌+◌, ◌<◌, ◌∷◌, ◌++◌, [], ℕ, cond, IfOk, OnOk};
ghost use Rattle.tm_model.specs.Opening.{IsBuildable};
ghost use Rattle.tm_build.specs.Holding.{held_of, ids_in};

use crate::check::names;
use std::alloc::{AllocError, Global};
use tm_batch::{Config, First, Name};

/// Puts an object, the one after so many of its trustee, behind those that a place holds, if the place is named.
fn note(
    held: &mut Vec<(u32, Name)>,
    named: bool,
    trustee: u32,
    before: u32,
) -> Result<(), AllocError>
    ensures { OnOk result (ids_in held.new.items ≡ ids_in held.old.items ++ cond named ((trustee, before + 1) ∷ []) []) }
{
    if named {
        let name = Name {
            id: u64::from(before) + 1,
            place: before,
        };
        held.push((trustee, name))?;
    }
    Ok(())
}

/// The objects of which a place is a holder, in the order of the list, each by its trustee's number and its name there:
/// objects have the ids from 1 on, in the order in which the list places them on their trustee. It takes a time for each
/// object and each of its holders. An error is want of memory.
pub fn held_by<S>(
    alloc: Global,
    config: Config,
    first: &Vec<First<S>>,
    place: u32,
) -> Result<Vec<(u32, Name)>, AllocError>
    requires { IsBuildable config first.now.items }
    ensures { IfOk result (λ held. ids_in held.items ≡ held_of place first.now.items) }
{
    let mut counts: Vec<u32> = Vec::new(alloc);
    counts.resize(config.trustees as usize, 0)?;
    let mut held = Vec::new(alloc);
    for f in first {
        let trustee = f.trustee as usize;
        let before = counts[trustee];
        counts[trustee] = before + 1;
        note(&mut held, names(f, place), f.trustee, before)?;
    }
    Ok(held)
}
