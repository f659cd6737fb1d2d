//! The program as a process: its words, its clock, and how it ends.
ghost use Rattle.std.specs.Prelude.{◌≡◌, ◌⊎◌, None, IfErr};
ghost use Rattle.std.specs.Process.{exit_status};
ghost use Rattle.tm_base.specs.Causes.{Rose};
ghost use Rattle.mc_top.specs.Statuses.{number_of};
ghost use Rattle.mc_words.specs.RunWords.{IsRunInRange};
ghost use Rattle.mc_words.specs.declared.run.Run.{Run};
ghost use Rattle.mc_top.specs.Runs.{views, Does, Exits};

use crate::status::Status;
use crate::top::top_in_turns;
use std::env;
use std::hash::RandomState;
use std::process::ExitCode;
use std::random::RandomSource;
use std::rt::{Clock, Env};
use tm_base::{FreeGate, Sink, Source, SystemClock};

// The words behind the program's name. Arguments that are no text are no lawful words.
fn words_of<R: Env + AllocGlobal>(rt: &R) -> Result<Vec<String>, Status>
    ensures { IfErr result (λ why. (why ≡ Status.BadWords) ⊎ (why ≡ Status.NoMemory)) }
{
    let args = env::args(rt).map_err(|_| Status::BadWords)?;
    args.skip(1)
        .collect(rt.alloc())
        .map_err(|_| Status::NoMemory)
}

// A run on the words of the process and the system's clock, with keys for hashes that nobody knows. Where the system
// has none to give, that counts as want of memory.
fn run<R: Env + AllocGlobal + Clock + RandomSource, A: Source, B: Sink>(
    rt: &R,
    input: &mut A,
    output: &mut B,
) -> Status
    ensures does { (run : Run) × IsRunInRange run × Does run.items run.max_bytes result
        (views (A.left input.old) None (B.written output.old))
        (views (A.left input.new) None (B.written output.new)) }
    ensures read_cause { result ≡ Status.ReadFault → Rose (A.faults input.old) (A.faults input.new) }
    ensures write_cause { result ≡ Status.WriteFault → Rose (B.faults output.old) (B.faults output.new) }
{
    let words = match words_of(rt) {
        Ok(words) => words,
        Err(status) => return status,
    };
    let mut clock = SystemClock::new(rt);
    let Ok(hasher) = RandomState::new(rt) else {
        return Status::NoMemory;
    };
    top_in_turns(
        rt.alloc(),
        &words,
        input,
        output,
        &mut clock,
        &FreeGate,
        hasher,
    )
}

/// Says on standard error how a run of the program ended, unless it is [`Status::Ended`], and gives the exit status of
/// the process. That nobody can be told is passed over.
pub fn conclude<R: Eprint>(rt: &R, status: Status) -> ExitCode
    ensures { exit_status result ≡ number_of status }
{
    if let Some(text) = status.text() {
        let _ = eprintln!(rt; "{text}");
    }
    ExitCode::from(status.number())
}

/// The whole program: [`top_in_turns`] on the words of the process, the system's clock and these two devices, which in
/// `main` are standard input and output, and then [`conclude`].
pub fn run_process<R: Env + AllocGlobal + Eprint + Clock + RandomSource, A: Source, B: Sink>(
    rt: &R,
    input: &mut A,
    output: &mut B,
) -> ExitCode
    // The exit status is that of a run that read and wrote so. What is said on standard error is no part of the output.
    ensures { Exits (exit_status result)
        (views (A.left input.old) None (B.written output.old))
        (views (A.left input.new) None (B.written output.new))
        (A.faults input.old) (A.faults input.new) (B.faults output.old) (B.faults output.new) }
{
    let status = run(rt, input, output);
    conclude(rt, status)
}
