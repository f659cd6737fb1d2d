//! The program's commands, as they are described to `clap`, and what it makes of words.
ghost use Rattle.std.specs.Prelude.{◌≡◌, ◌≢◌, [], false, IfOk, IfErr};
ghost use Rattle.clap.specs.Faults.{fault_of};
ghost use Rattle.clap.specs.Simple.{subcommand_of, subcommand_rows_of};
ghost use Rattle.clap.specs.Words.{app_of, rule_of};
ghost use Rattle.clap.specs.declared.builder.command.Command.TheViews.{out-Command};
ghost use Rattle.mc_words.specs.Commands.{bare_program, program, rule, subcommand};
ghost use Rattle.mc_words.specs.Options.{texts};

use crate::names::Name;
use crate::stop::WordsStop;
use crate::{load, run, serve};
use clap::error::ErrorKind;
use clap::{Arg, ArgAction, ArgMatches, Command};
use std::alloc::{AllocError, Global};

fn argument<'a>(alloc: Global, name: Name) -> Arg<'a>
    ensures rule { rule_of result ≡ rule name }
    ensures local { result.global ≡ false }
{
    let action = match name.range() {
        Some(_) => ArgAction::Set,
        None => ArgAction::SetTrue,
    };
    let label: &'a str = name.label();
    Arg::new(alloc, label).long(label).action(action)
}

fn subcommand<'a>(alloc: Global, name: &'a str, options: &[Name]) -> Result<Command<'a>, AllocError>
    ensures shape { IfOk result (λ command. (app_of command).top ≡ subcommand name.entry.now options.now) }
    ensures local { IfOk result (λ command. (out-Command command).has_globals ≡ false) }
{
    let mut command = Command::new(alloc, name);
    for option in options {
        command = command.arg(argument(alloc, *option))?;
    }
    Ok(command)
}

fn bare_program<'a>(alloc: Global) -> Command<'a>
    ensures { app_of result ≡ bare_program }
{
    Command::new(alloc, "trustmc")
        .no_binary_name(true)
        .disable_help_flag(true)
        .disable_help_subcommand(true)
        .disable_version_flag(true)
}

fn program<'a>(alloc: Global) -> Result<Command<'a>, AllocError>
    ensures { IfOk result (λ command. app_of command ≡ program) }
{
    bare_program(alloc)
        .subcommand(subcommand(alloc, "run", &run::NAMES)?)?
        .subcommand(subcommand(alloc, "serve", &serve::NAMES)?)?
        .subcommand(subcommand(alloc, "load", &load::NAMES)?)
}

/// What `clap` finds in the words, where it takes them.
pub(crate) fn matches_of<'a>(
    alloc: Global,
    words: &'a [String],
) -> Result<ArgMatches<'a>, WordsStop>
    ensures taken { IfOk result (λ matches. fault_of program (texts words.entry.now) ≡ []) }
    ensures rows { IfOk result (λ matches. subcommand_rows_of matches ≡ subcommand_of program (texts words.entry.now)) }
    ensures refused { IfErr result (λ stop. stop ≡ WordsStop.BadWords → fault_of program (texts words.entry.now) ≢ []) }
{
    match program(alloc)?.try_get_matches_from(words) {
        Ok(matches) => Ok(matches),
        Err(error) => match error.kind() {
            ErrorKind::OutOfMemory => Err(WordsStop::NoMemory),
            _ => Err(WordsStop::BadWords),
        },
    }
}
