//! The values of options, by the texts that `clap` found.
ghost use Rattle.std.specs.Prelude.{◌≡◌, ℕ, Bool, Option, IfOk, IfSome, OnErr, Some, codes, if◌then◌else◌, unwrap_or};
ghost use Rattle.clap.specs.Words.{first_of, found_of, one_of, rows_of};
ghost use Rattle.mc_words.specs.Spelling.{label, range_of, LiesIn};
ghost use Rattle.mc_words.specs.Matched.{TextGives};

use crate::names::Name;
use crate::stop::BadWords;
use clap::ArgMatches;

/// The value of an option that is given. A text that is no value of it is refused.
pub(crate) fn given(matches: &ArgMatches, name: Name) -> Result<Option<u64>, BadWords>
    ensures says { IfOk result (TextGives (range_of name) (first_of (label name) (rows_of (found_of matches.now)))) }
    ensures refused { OnErr result ((given : Option ℕ) → TextGives (range_of name) (first_of (label name) (rows_of (found_of matches.now))) given → ⊥) }
    ensures within { IfOk result (λ given. IfSome given (LiesIn (range_of name))) }
{
    let Some(text) = matches.get_str(name.label()) else {
        return Ok(None);
    };
    match name.value(text) {
        Some(value) => Ok(Some(value)),
        None => Err(BadWords),
    }
}

/// The value of a setting, which is the usual one where it is not given.
pub(crate) fn setting(matches: &ArgMatches, name: Name, usual: u64) -> Result<u64, BadWords>
    requires { LiesIn (range_of name) usual }
    ensures says { IfOk result (λ value. (given : Option ℕ)
        × TextGives (range_of name) (first_of (label name) (rows_of (found_of matches.now))) given × (value ≡ unwrap_or given usual)) }
    ensures refused { OnErr result ((given : Option ℕ) → TextGives (range_of name) (first_of (label name) (rows_of (found_of matches.now))) given → ⊥) }
    ensures within { IfOk result (LiesIn (range_of name)) }
{
    Ok(given(matches, name)?.unwrap_or(usual))
}

/// Whether a flag is given.
pub(crate) fn flag(matches: &ArgMatches, name: Name) -> bool
    ensures { (given : Bool) → one_of (label name) (rows_of (found_of matches.now)) ≡ Some (if given then codes "true" else codes "false") → result ≡ given }
{
    matches.get_flag(name.label())
}
