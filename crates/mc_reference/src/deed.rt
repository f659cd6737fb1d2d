//! What an operation does to its key's item, and what is replied.
ghost use Rattle.std.specs.Prelude.{◌≡◌};
ghost use Rattle.mc_model.specs.Rows.{with_effect, refused};
ghost use Rattle.mc_reference.specs.Deed.{effect_of, outcome};

use mc_model::{Item, ShardReply};

/// What an operation does to the item of its key.
#[derive(Drop)]
pub(crate) enum Deed {
    Keep,
    Use(Item),
    Put(Item),
    Remove,
}

/// The reply, what becomes of the item, and whether a store is counted.
#[derive(Drop)]
pub(crate) struct Done {
    pub(crate) reply: ShardReply,
    pub(crate) deed: Deed,
    pub(crate) is_store: bool,
}

/// A reply with a deed, and no store is counted.
pub(crate) fn with_deed(reply: ShardReply, deed: Deed) -> Done
    ensures outcome { outcome result ≡ with_effect reply (effect_of deed) }
    ensures deed { result.deed ≡ deed }
{
    Done {
        reply,
        deed,
        is_store: false,
    }
}

/// A reply, and nothing changes.
pub(crate) fn refused(reply: ShardReply) -> Done
    ensures outcome { outcome result ≡ refused reply }
    ensures keeps { result.deed ≡ Deed.Keep }
{
    with_deed(reply, Deed::Keep)
}
