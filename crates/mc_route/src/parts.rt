//! What classes are asked for one command.
ghost use Rattle.std.specs.Prelude.{◌≡◌, [], ◌∷◌, ◌++◌, length, OnOk, OnErr};

use mc_shard::ShardOp;
use std::alloc::{AllocError, Global};
use std::marker::Model;

/// An operation, and the number of the class that is asked it, 0 to 63.
#[derive(Drop)]
pub struct ShardPart {
    pub class: u32,
    pub op: ShardOp,
}

/// Parts in order, seen as a list.
#[derive(Drop)]
pub struct ShardParts {
    inner: Vec<ShardPart>,
}

impl Model for ShardParts {
    ghost use Rattle.std.specs.Prelude.{List};
    ghost use Rattle.mc_route.specs.declared.parts.ShardPart.{ShardPart};

    ghost Value = { List ShardPart };

    ghost view = { λ p. p.inner.items };
}

impl ShardParts {
    /// No parts. Takes no memory.
    pub(crate) fn new(alloc: Global) -> ShardParts
        ensures { result ≡ [] }
    {
        ShardParts {
            inner: Vec::new(alloc),
        }
    }

    /// How many parts there are, and so how many replies will come.
    pub fn len(&self) -> usize
        ensures { result ≡ length self.now }
    {
        self.inner.len()
    }

    /// Puts a part last. An `Err` leaves the parts as they were.
    pub(crate) fn push(&mut self, part: ShardPart) -> Result<(), AllocError>
        ensures ok { OnOk result (self.new ≡ self.old ++ part ∷ []) }
        ensures err { OnErr result (self.new ≡ self.old) }
    {
        self.inner.push(part)?;
        Ok(())
    }

    /// The parts themselves, in order.
    pub fn into_vec(self) -> Vec<ShardPart>
        ensures { result.items ≡ self }
    {
        let ShardParts { inner } = self;
        inner
    }
}
