//! A list that only contracts read.
ghost use Rattle.std.specs.Prelude.{◌≡◌, List, [], ◌∷◌, ◌++◌};
ghost use Rattle.std.specs.Borrow.{ftrue};

use std::fmt;
use std::marker::{Brand, Model, PhantomData};
use std::mem::size_of;

/// What a list is to be, for contracts alone: each call of [`GhostList::of`] picks it.
pub trait Items<T> {
    /// The elements, in order.
    ghost items: { List T };
}

/// With no pick there are none.
impl<T> Items<T> for Brand {
    ghost items = { [] };
}

/// A list that only contracts read, such as the calls that a table has had.
///
/// A struct keeps its history in one, so that clauses of later calls can speak of it. It has no bytes
/// when the program runs, it owns nothing, also where its elements would, and code cannot look at it. A
/// list is never changed: a call that adds an element makes a new one, whose elements its proof picks.
#[derive(Drop)]
pub struct GhostList<T> {
    of: PhantomData<T>,
    pub ghost items: { List T },
}

// It has no bytes, whatever its elements are.
const _: () = prove!(size_of::<GhostList<u64>>() == 0);

impl<T> Model for GhostList<T> {
    ghost also_owns = { λ _. ftrue };
}

// It owns nothing.
unsafe impl<T: Send> Send for GhostList<T> {}

impl<T> fmt::Debug for GhostList<T> {
    fn fmt<W: fmt::Write>(&self, f: &mut fmt::Formatter<W>) -> fmt::Result {
        f.write_str("GhostList")
    }
}

impl<T> GhostList<T> {
    /// The empty list.
    pub fn new() -> GhostList<T>
        ensures { result.items ≡ [] }
    {
        GhostList { of: PhantomData }
    }

    /// The list that the caller's proof picks.
    pub fn of<E: Items<T>>() -> GhostList<T>
        ensures { result.items ≡ E.items }
    {
        GhostList { of: PhantomData }
    }
}
