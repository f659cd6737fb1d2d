//! The options' names, and the values that each may have.
ghost use Rattle.std.specs.Prelude.{◌≡◌, ℕ, ◌+◌, ◌≤◌, Some, IfSome, MatchOption};
ghost use Rattle.mc_item.specs.Numbers.{digits_below};
ghost use Rattle.mc_words.specs.Spelling.{label, range_of, IsValue, LiesIn};

use crate::limits::{
    FEWEST_BYTES, FEWEST_CLIENTS, FEWEST_ITEMS, FEWEST_WORKERS, LONGEST_VALUE, MOST_BYTES,
    MOST_CLIENTS, MOST_CONNECTIONS, MOST_OPS, MOST_SEED, MOST_WORKERS,
};
use mc_item::MOST_ITEMS;
use mc_item::number::number;
use tm_batch::{FEWEST_TRUSTEES, MOST_TRUSTEES};

/// An option of a command.
#[derive(Clone, Copy, Debug, PartialEq, Eq)]
pub(crate) enum Name {
    /// `--trustees`, how many there are.
    Trustees,
    /// `--max-bytes`, the most bytes that an input, or each connection, is answered.
    MaxBytes,
    /// `--items`, the most items of each class.
    Items,
    /// `--turns`, that one thread does all. It stands alone, and has no value.
    Turns,
    /// `--port`, the TCP port that is listened at, 0 for any that is free.
    Port,
    /// `--workers`, how many threads serve connections.
    Workers,
    /// `--connections`, after how many a server ends.
    Connections,
    /// `--seed`, from which the operations of a load are generated.
    Seed,
    /// `--ops`, how many operations a load has.
    Ops,
    /// `--clients`, how many clients share a load.
    Clients,
}

/// The values of an option, both ends among them.
#[derive(Clone, Copy, Debug, PartialEq, Eq)]
pub(crate) struct Range {
    /// The least value.
    pub least: u64,
    /// The greatest value.
    pub most: u64,
}

fn between(least: u64, most: u64) -> Option<Range>
    ensures { result ≡ Some (record { least = least; most = most }) }
{
    Some(Range { least, most })
}

impl Name {
    /// The option's name without the two hyphens before it.
    pub(crate) fn label(self) -> &'static str
        ensures { result.now ≡ label self }
    {
        match self {
            Name::Trustees => "trustees",
            Name::MaxBytes => "max-bytes",
            Name::Items => "items",
            Name::Turns => "turns",
            Name::Port => "port",
            Name::Workers => "workers",
            Name::Connections => "connections",
            Name::Seed => "seed",
            Name::Ops => "ops",
            Name::Clients => "clients",
        }
    }

    /// The values that the option may have, or nothing for one that stands alone.
    pub(crate) fn range(self) -> Option<Range>
        ensures { result ≡ range_of self }
    {
        match self {
            Name::Turns => None,
            Name::Trustees => between(u64::from(FEWEST_TRUSTEES), u64::from(MOST_TRUSTEES)),
            Name::MaxBytes => between(FEWEST_BYTES, MOST_BYTES),
            Name::Items => between(FEWEST_ITEMS, u64::from(MOST_ITEMS)),
            Name::Port => between(0, u64::from(u16::MAX)),
            Name::Workers => between(FEWEST_WORKERS, MOST_WORKERS),
            Name::Connections => between(0, MOST_CONNECTIONS),
            Name::Seed => between(0, MOST_SEED),
            Name::Ops => between(0, MOST_OPS),
            Name::Clients => between(FEWEST_CLIENTS, MOST_CLIENTS),
        }
    }

    /// The value that a text of 1 to 19 digits spells for the option, if it may have it. Zeros may lead.
    pub(crate) fn value(self, text: &str) -> Option<u64>
        ensures spells { MatchOption result ((value : ℕ) → IsValue (range_of self) text.now value → ⊥) (IsValue (range_of self) text.now) }
        ensures within { IfSome result (LiesIn (range_of self)) }
    {
        let range = self.range()?;
        let value = short_number(text.as_bytes(), range.most)?;
        (range.least <= value).then_some(value)
    }
}

#[tactic(auto, unfolding(mc_item::specs::Numbers::digits_below, mc_item::specs::Numbers::number_below))]
fn short_number(text: &[u8], most: u64) -> Option<u64>
    ensures value { result ≡ digits_below LONGEST_VALUE (most + 1) text.now }
    ensures most { IfSome result (λ value. value ≤ most) }
{
    if text.len() > LONGEST_VALUE {
        return None;
    }
    number(text, most)
}
