//! The words of `run`.
ghost use Rattle.std.specs.Prelude.{ℕ, Option, IfOk, OnErr};
ghost use Rattle.clap.specs.Words.{found_of, rows_of};
ghost use Rattle.mc_words.specs.Matched.{RowsGive};
ghost use Rattle.mc_words.specs.RunWords.{IsRun, IsRunInRange};
ghost use Rattle.mc_words.specs.declared.run.Run.{Run};

use crate::limits::{USUAL_BYTES, USUAL_TRUSTEES};
use crate::names::Name;
use crate::settings::{flag, setting};
use crate::stop::BadWords;
use clap::ArgMatches;
use mc_item::USUAL_ITEMS;

/// The options of `run`.
pub(crate) const NAMES: [Name; 4] = [Name::Trustees, Name::MaxBytes, Name::Items, Name::Turns];

/// What `run` is to do: answer the commands of one input.
#[derive(Clone, Copy, Debug, PartialEq, Eq)]
pub struct Run {
    /// `--trustees`, 2 to 32, usually 5.
    pub trustees: u32,
    /// `--max-bytes`, 1 to 2^62, usually 2^40.
    pub max_bytes: u64,
    /// `--items` of each class, 1 to 65,536, usually 4,096.
    pub items: u32,
    /// `--turns`: all is done on one thread.
    pub turns: bool,
}

/// What the options of `run` say.
pub(crate) fn read(matches: &ArgMatches) -> Result<Run, BadWords>
    requires { (given : Option ℕ) × RowsGive (rows_of (found_of matches.now)) Name.Turns given }
    ensures says { IfOk result (IsRun (RowsGive (rows_of (found_of matches.now)))) }
    ensures range { IfOk result IsRunInRange }
    ensures refused { OnErr result ((run : Run) → IsRun (RowsGive (rows_of (found_of matches.now))) run → ⊥) }
{
    Ok(Run {
        trustees: setting(matches, Name::Trustees, USUAL_TRUSTEES)? as u32,
        max_bytes: setting(matches, Name::MaxBytes, USUAL_BYTES)?,
        items: setting(matches, Name::Items, u64::from(USUAL_ITEMS))? as u32,
        turns: flag(matches, Name::Turns),
    })
}
