//! The objects of the build are dealt to their trustees.
ghost use Rattle.std.specs.Prelude.{◌≡◌, ◌<◌, [], map, IfOk};
ghost use Rattle.std.specs.List.{AllByRecursion};
ghost use Rattle.std.proofs.Math.ListN.{replicate};
ghost use Rattle.tm_build.specs.Dealing.{AreSplit};

use std::alloc::{AllocError, Global};
use tm_batch::First;

/// So many empty lists. An error is want of memory.
pub fn empty_lists<T: Drop>(alloc: Global, count: u32) -> Result<Vec<Vec<T>>, AllocError>
    ensures { IfOk result (λ lists. map (λ l. l.items) lists.items ≡ replicate count []) }
{
    let mut lists = Vec::new(alloc);
    for _ in 0..count {
        lists.push(Vec::new(alloc))?;
    }
    Ok(lists)
}

/// The objects of the build by their trustees: a list for each, in order, of those that are placed on it, in their order.
/// Each must be placed on one of them. It takes a constant time for each. An error is want of memory, and the objects
/// are gone.
pub fn split<S: Drop>(
    alloc: Global,
    trustees: u32,
    first: Vec<First<S>>,
) -> Result<Vec<Vec<First<S>>>, AllocError>
    requires { AllByRecursion (λ f. f.trustee < trustees) first.items }
    ensures { IfOk result (λ lists. AreSplit trustees first.items (map (λ l. l.items) lists.items)) }
{
    let mut lists = empty_lists(alloc, trustees)?;
    for f in first {
        let list = &mut lists[f.trustee as usize];
        list.push(f)?;
    }
    Ok(lists)
}
