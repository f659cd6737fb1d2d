//! Keys of items.
ghost use Rattle.std.specs.Prelude.{◌≡◌, ◌↔◌, ◌≤◌, [], ◌∷◌, length, nat_eq, refl, true, false, IfOk, IsErrOf};
ghost use Rattle.std.specs.Ordering.{nat_cmp, as_partial_cmp};
ghost use Rattle.std.specs.Cmp.Lexicographic.{pointwise, slice_cmp};
ghost use Rattle.std.specs.Cmp.{partial_order_from_own_ties};
ghost use Rattle.std.specs.Cmp.Rules.{comparing, hashing};
ghost use Rattle.std.proofs.Common.{rules};
ghost use Rattle.mc_item.specs.Keys.{is_key_byte, is_key};
ghost use Rattle.mc_item.specs.Forms.{bytes_of};

use crate::inline::Inline;
use crate::limits::LONGEST_KEY;
use std::alloc::{AllocError, Global};
use std::cmp::Ordering;
use std::fmt;
use std::hash::{Hash, Hasher};
use std::marker::Model;
use thiserror::Error;

// The most bytes of a key that stands in place: it weighs as much as a pointer with two numbers.
const SHORT: usize = 22;

// The most bytes of a key whose block is one of 64 bytes, with the allocator's own eight.
const MIDDLE: usize = 55;

// Where the bytes of a key stand: in place, or in one block.
#[derive(Drop)]
enum Form {
    Short(Inline<SHORT>),
    Middle(Box<Inline<MIDDLE>>),
    Long(Box<Inline<LONGEST_KEY>>),
}

/// A key: 1 to 250 bytes, none of them 0 to 32 or 127, as memcached's protocol.txt asks. A
/// contract sees the list of the bytes. Keys are ordered as their bytes are, the first byte first.
/// A key of up to 22 bytes has no block of memory, a longer one has one.
#[derive(Drop)]
pub struct Key {
    form: Form,
}

impl Model for Key {
    ghost use Rattle.std.specs.Prelude.{◌≡◌, List, ℕ, true};
    ghost use Rattle.mc_item.specs.Keys.{is_key};
    ghost use Rattle.mc_item.specs.Forms.{bytes_of};

    ghost Value = { List ℕ };

    ghost view = { λ a. bytes_of a.form };

    ghost invariant = { λ a. is_key (bytes_of a.form) ≡ true };
}

/// Why bytes made no key.
#[derive(Clone, Copy, Debug, PartialEq, Eq, Error)]
pub enum KeyRefused {
    /// The bytes are no key.
    #[error("BadKey")]
    BadKey,
    /// The allocator had no memory.
    #[error("NoMemory")]
    NoMemory,
}

fn is_key_byte(byte: u8) -> bool
    ensures { result ≡ is_key_byte byte }
{
    b' ' < byte && byte != 127
}

/// Whether the bytes are a key. Each byte is looked at once at most.
#[tactic(auto, unfolding(crate::specs::Keys::is_key))]
pub fn is_key(bytes: &[u8]) -> bool
    ensures { result ≡ is_key bytes.now }
{
    if bytes.is_empty() || LONGEST_KEY < bytes.len() {
        return false;
    }
    bytes.iter().all(|byte| is_key_byte(*byte))
}

impl Form {
    // A copy of some bytes.
    fn of(alloc: Global, from: &[u8]) -> Result<Form, AllocError>
        requires { length from.now ≤ LONGEST_KEY }
        ensures { IfOk result (λ form. bytes_of form ≡ from.now) }
    {
        if from.len() <= SHORT {
            Ok(Form::Short(Inline::of(from)))
        } else if from.len() <= MIDDLE {
            Ok(Form::Middle(Box::new(alloc, Inline::of(from))?))
        } else {
            Ok(Form::Long(Box::new(alloc, Inline::of(from))?))
        }
    }

    fn get(&self) -> &[u8]
        ensures { result.now ≡ bytes_of self.now }
    {
        match self {
            Form::Short(bytes) => bytes.get(),
            Form::Middle(bytes) => bytes.get(),
            Form::Long(bytes) => bytes.get(),
        }
    }

    // A copy, whose block, if it has one, is of the same allocator.
    fn copy(&self) -> Result<Form, AllocError>
        ensures { IfOk result (λ form. bytes_of form ≡ bytes_of self.now) }
    {
        match self {
            Form::Short(bytes) => Ok(Form::Short(bytes.copy())),
            Form::Middle(bytes) => Ok(Form::Middle(Box::new(
                *Box::allocator(bytes),
                bytes.copy(),
            )?)),
            Form::Long(bytes) => Ok(Form::Long(Box::new(*Box::allocator(bytes), bytes.copy())?)),
        }
    }
}

impl Key {
    /// A copy of some bytes, as a key. `BadKey` comes first.
    pub fn of(alloc: Global, from: &[u8]) -> Result<Key, KeyRefused>
        ensures ok { IfOk result (λ key. key ≡ from.now) }
        ensures lawful { IfOk result (λ key. is_key key ≡ true) }
        ensures bad { IsErrOf result KeyRefused.BadKey ↔ (is_key from.now ≡ false) }
    {
        if !is_key(from) {
            return Err(KeyRefused::BadKey);
        }
        match Form::of(alloc, from) {
            Ok(form) => Ok(Key { form }),
            Err(AllocError) => Err(KeyRefused::NoMemory),
        }
    }

    /// The bytes of the key.
    pub fn get(&self) -> &[u8]
        ensures value { result.now ≡ self.now }
        ensures lawful { is_key self.now ≡ true }
    {
        self.form.get()
    }
}

impl Clone for Key {
    ghost is_clone = { λ key copy. copy ≡ key };

    fn clone(&self) -> Result<Key, AllocError> {
        Ok(Key {
            form: self.form.copy()?,
        })
    }
}

impl PartialEq for Key {
    ghost eq = { pointwise nat_eq };

    ghost laws = { Prim.search (comparing, rules) };

    fn eq(&self, other: &Key) -> bool {
        self.get() == other.get()
    }
}

impl Eq for Key {
    ghost laws = { Prim.search (comparing, rules) };
}

impl PartialOrd for Key {
    ghost partial_cmp = { as_partial_cmp (slice_cmp nat_cmp) };

    ghost laws = { partial_order_from_own_ties (Prim.search (comparing, rules)) (Prim.search (comparing, rules)) };

    fn partial_cmp(&self, other: &Key) -> Option<Ordering> {
        Some(self.cmp(other))
    }
}

impl Ord for Key {
    ghost cmp = { slice_cmp nat_cmp };

    ghost total = { Prim.search (comparing, rules) };

    ghost matches_partial_cmp = { λ x y. refl };

    ghost matches_eq = { Prim.search (comparing, rules) };

    fn cmp(&self, other: &Key) -> Ordering {
        self.get().cmp(other.get())
    }
}

impl Hash for Key {
    ghost hash_input = { λ key. key ∷ [] };

    ghost respects_eq = { Prim.search (hashing, rules) };

    // One write of all bytes: a slice of bytes would be written one by one.
    fn hash<H: Hasher>(&self, state: &mut H) {
        state.write(self.get());
    }
}

/// As a byte string of Rust, as in `b"a"`.
impl fmt::Debug for Key {
    fn fmt<W: fmt::Write>(&self, f: &mut fmt::Formatter<W>) -> fmt::Result {
        write!(f, "b\"{}\"", self.get().escape_ascii())
    }
}
