//! The words of `load`.
ghost use Rattle.std.specs.Prelude.{ℕ, Option, IfOk, OnErr};
ghost use Rattle.clap.specs.Words.{found_of, rows_of};
ghost use Rattle.mc_words.specs.Matched.{RowsGive};
ghost use Rattle.mc_words.specs.LoadWords.{IsLoad, IsLoadInRange};
ghost use Rattle.mc_words.specs.declared.load.Load.{Load};

use crate::limits::{USUAL_CLIENTS, USUAL_OPS, USUAL_SEED, USUAL_TRUSTEES};
use crate::names::Name;
use crate::settings::{flag, setting};
use crate::stop::BadWords;
use clap::ArgMatches;

/// The options of `load`.
pub(crate) const NAMES: [Name; 5] = [
    Name::Seed,
    Name::Ops,
    Name::Clients,
    Name::Trustees,
    Name::Turns,
];

/// What `load` is to do: generate operations, and tell what they left.
#[derive(Clone, Copy, Debug, PartialEq, Eq)]
pub struct Load {
    /// `--seed`, 0 to 65,535, usually 1.
    pub seed: u32,
    /// `--ops`, 0 to 1,000,000, usually 20,000.
    pub ops: u64,
    /// `--clients`, 1 to 16, usually 4.
    pub clients: u32,
    /// `--trustees`, 2 to 32, usually 5.
    pub trustees: u32,
    /// `--turns`: all is done on one thread.
    pub turns: bool,
}

/// What the options of `load` say.
pub(crate) fn read(matches: &ArgMatches) -> Result<Load, BadWords>
    requires { (given : Option ℕ) × RowsGive (rows_of (found_of matches.now)) Name.Turns given }
    ensures says { IfOk result (IsLoad (RowsGive (rows_of (found_of matches.now)))) }
    ensures range { IfOk result IsLoadInRange }
    ensures refused { OnErr result ((load : Load) → IsLoad (RowsGive (rows_of (found_of matches.now))) load → ⊥) }
{
    Ok(Load {
        seed: setting(matches, Name::Seed, USUAL_SEED)? as u32,
        ops: setting(matches, Name::Ops, USUAL_OPS)?,
        clients: setting(matches, Name::Clients, USUAL_CLIENTS)? as u32,
        trustees: setting(matches, Name::Trustees, USUAL_TRUSTEES)? as u32,
        turns: flag(matches, Name::Turns),
    })
}
