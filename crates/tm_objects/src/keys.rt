//! A set of keys that gives its members out and looks at no other key.
//!
//! It is a sparse set: the members stand in a list, in no order, and each key has its position in
//! that list. A key comes in at the list's end, and where one goes the last takes its position. So a
//! change takes constant time, and who takes all members away looks at no other key.
ghost use Rattle.std.specs.Prelude.{◌≡◌, ℕ, ◌<◌, length, true, false, replicate, slice_index_or, slice_set, IfOk, IfSome, IfNone};

use std::alloc::{AllocError, Global};
use std::marker::Model;

/// The position of a key that is no member.
const ABSENT: u32 = u32::MAX;

/// A set of keys below a bound, with room for all of them: 8 bytes for each. A contract sees for
/// each key whether it is a member.
#[derive(Drop)]
pub struct KeySet {
    members: Vec<u32>,
    // The position among the members of each key.
    positions: Vec<u32>,
}

impl Model for KeySet {
    ghost use Rattle.std.specs.Prelude.{List, Bool, map, vec_capacity};
    ghost use Rattle.tm_objects.specs.Sparse.{is_member, IsSparse};

    ghost Value = { List Bool };

    ghost view = { λ a. map is_member a.positions.items };

    ghost invariant = { λ a. IsSparse a.members.items a.positions.items (vec_capacity a.members) };
}

impl KeySet {
    /// No member, of the keys below `size`.
    pub fn new(alloc: Global, size: u32) -> Result<KeySet, AllocError>
        ensures { IfOk result (λ a. a ≡ replicate size false) }
    {
        Ok(KeySet {
            members: Vec::with_capacity(alloc, size as usize)?,
            positions: vec![in alloc; ABSENT; size as usize]?,
        })
    }

    /// Lets a key be a member.
    pub fn insert(&mut self, key: usize)
        requires { key < length self.old }
        ensures { self.new ≡ slice_set self.old key true }
    {
        if self.positions[key] == ABSENT {
            self.positions[key] = self.members.len() as u32;
            self.members.push_reserved(key as u32);
        }
    }

    /// Lets a key be no member.
    pub fn remove(&mut self, key: usize)
        requires { key < length self.old }
        ensures { self.new ≡ slice_set self.old key false }
    {
        let position = self.positions[key];
        if position == ABSENT {
            return;
        }
        let Some(last) = self.members.pop() else {
            unreachable!()
        };
        self.positions[key] = ABSENT;
        if last as usize != key {
            self.members[position as usize] = last;
            self.positions[last as usize] = position;
        }
    }

    /// Takes a member out, if there is one.
    pub fn pop(&mut self) -> Option<usize>
        ensures was { IfSome result (λ key. slice_index_or self.old key false ≡ true) }
        ensures taken { IfSome result (λ key. self.new ≡ slice_set self.old key false) }
        ensures none { IfNone result ((key : ℕ) → slice_index_or self.old key false ≡ false) }
        ensures empty { IfNone result (self.new ≡ self.old) }
    {
        let key = self.members.pop()? as usize;
        self.positions[key] = ABSENT;
        Some(key)
    }
}
