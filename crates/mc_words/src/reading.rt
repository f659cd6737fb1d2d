//! What the words behind the program's name say is to be done.
ghost use Rattle.std.specs.Prelude.{◌≡◌, IfOk, OnErr, Err, codes, string_bytes};
ghost use Rattle.std.specs.List.{list_any};
ghost use Rattle.std.specs.Str.{bytes_eq};
ghost use Rattle.mc_words.specs.Options.{texts};
ghost use Rattle.clap.specs.Words.{subcommand_rows_of};
ghost use Rattle.mc_words.specs.Saying.{IsInRange, Says, SaysOneThing};
ghost use Rattle.mc_words.specs.Matched.{RowsSay, TellTurns};
ghost use Rattle.mc_words.specs.declared.reading.Words.{Words};

use crate::commands::matches_of;
use crate::load::Load;
use crate::run::Run;
use crate::serve::Serve;
use crate::stop::{BadWords, WordsStop};
use crate::{load, run, serve};
use clap::ArgMatches;
use std::alloc::Global;

/// What the program is to do.
#[derive(Clone, Copy, Debug, PartialEq, Eq)]
pub enum Words {
    /// To answer the commands of one input.
    Run(Run),
    /// To answer the commands of TCP connections.
    Serve(Serve),
    /// To generate operations, and tell what they left.
    Load(Load),
}

// To `clap` a word `--` would end the options. Here it is no lawful word.
fn has_dashes(words: &[String]) -> bool
    ensures { result ≡ list_any (λ word. bytes_eq (string_bytes word) (codes "--")) words.now }
{
    words.iter().any(|word| word.as_str() == "--")
}

// What a command says, by what `clap` found.
fn said_by(matches: &ArgMatches) -> Result<Words, BadWords>
    requires { TellTurns (subcommand_rows_of matches.now) }
    ensures says { IfOk result (RowsSay (subcommand_rows_of matches.now)) }
    ensures range { IfOk result IsInRange }
    ensures refused { OnErr result ((meaning : Words) → RowsSay (subcommand_rows_of matches.now) meaning → ⊥) }
{
    let Some((command, options)) = matches.subcommand() else {
        return Err(BadWords);
    };
    match command {
        "run" => Ok(Words::Run(run::read(options)?)),
        "serve" => Ok(Words::Serve(serve::read(options)?)),
        "load" => Ok(Words::Load(load::read(options)?)),
        _ => Err(BadWords),
    }
}

/// What the words behind the program's name say, with the usual value of each option that is not given.
///
/// The first word is `run`, `serve` or `load`, and its options stand behind it, in any order, each at most once:
/// `--turns` alone, and any other as `--name value` or `--name=value`. A value is 1 to 19 digits, and zeros may lead.
/// `serve` is not without its `--port`. All other words are `WordsStop::BadWords`, `--help` and a word `--` among them.
///
/// `clap` is told the commands anew at each call, which takes memory for them and for the words; it goes through the
/// words once. This never waits.
pub fn read_words(alloc: Global, words: &[String]) -> Result<Words, WordsStop>
    ensures says { IfOk result (Says (texts words.now)) }
    ensures range { IfOk result IsInRange }

    // Words are refused exactly where they have no meaning. Want of memory may come at any words.
    ensures refused { result ≡ Err WordsStop.BadWords → (meaning : Words) → Says (texts words.now) meaning → ⊥ }
{
    if has_dashes(words) {
        return Err(WordsStop::BadWords);
    }
    let matches = matches_of(alloc, words)?;
    Ok(said_by(&matches)?)
}

/// Words have at most one meaning.
pub fn says_one_thing()
    ensures { SaysOneThing }
{}
