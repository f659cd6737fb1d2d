//! The program's words.
ghost use Rattle.std.specs.Prelude.{◌≡◌, ◌⊎◌, Err, IfOk, IfErr};
ghost use Rattle.mc_words.specs.RunWords.{IsRunInRange};
ghost use Rattle.mc_words.specs.declared.run.Run.{Run};
ghost use Rattle.mc_top.specs.Runs.{AreLawful};

use crate::status::Status;
use mc_words::{Run, Words, WordsStop, read_words};
use std::alloc::Global;

/// What is to be run, by the words behind the program's name. They are those of `run` with `--turns`, the only command
/// as yet. All others are `Status::BadWords`; want of memory may come at any.
pub(crate) fn run_of(alloc: Global, words: &[String]) -> Result<Run, Status>
    ensures lawful { IfOk result (AreLawful words.now) }
    ensures range { IfOk result IsRunInRange }
    ensures refused { result ≡ Err Status.BadWords → (run : Run) → AreLawful words.now run → ⊥ }
    ensures why { IfErr result (λ why. (why ≡ Status.BadWords) ⊎ (why ≡ Status.NoMemory)) }
{
    mc_words::says_one_thing();
    match read_words(alloc, words) {
        Ok(Words::Run(run)) if run.turns => Ok(run),
        Ok(_) => Err(Status::BadWords),
        Err(WordsStop::BadWords) => Err(Status::BadWords),
        Err(WordsStop::NoMemory) => Err(Status::NoMemory),
    }
}
