//! The top call: all that the program does.
ghost use Rattle.std.specs.Prelude.{◌≡◌, ◌≢◌, ◌⊎◌};
ghost use Rattle.tm_base.specs.Causes.{Rose};
ghost use Rattle.mc_words.specs.RunWords.{IsRunInRange};
ghost use Rattle.mc_words.specs.declared.run.Run.{Run};
ghost use Rattle.mc_top.specs.Runs.{AreLawful, views, Does};

use crate::serving::{answer_all, status_by};
use crate::status::Status;
use crate::words::run_of;
use mc_words::says_one_thing;
use std::alloc::Global;
use std::hash::RandomState;
use tm_base::{Clock, Gate, Sink, Source};

/// Runs the program on the words behind its name, which are those of `run --turns` as yet ([`read_words`](mc_words::read_words)).
///
/// It reads the input as it comes, to its end or to a `quit`, at most `--max-bytes`. Each command is asked of the
/// trustees in turns, of which there are `--trustees`. They own the 64 classes, each of at most `--items` items. What
/// the replies show is written in memcached's words. Before each read all that came whole is answered and written. The
/// clock is read once for each command, and each trustee passes the gate before each request. Keys are found by
/// `hasher`. The call always returns. What it keeps in memory is the items, the runtime's room, one line or value of the
/// input, a read's buffer, the output that is gathered, and the reply to one command.
pub fn top_in_turns<A: Source, B: Sink, W: Clock, G: Gate>(
    alloc: Global,
    words: &[String],
    input: &mut A,
    output: &mut B,
    clock: &mut W,
    gate: &G,
    hasher: RandomState,
) -> Status
    // The output is the plain store's for the messages of the input up to its first `quit`, at their moments: all of it
    // where the input ended, between two messages or inside one, had more bytes than the words allow, or failed, for all
    // that came whole before; and a front of it where the output failed or memory was wanting.
    ensures does { (run : Run) → AreLawful words.now run → Does run.items run.max_bytes result
        (views (A.left input.old) (W.readings clock.old) (B.written output.old))
        (views (A.left input.new) (W.readings clock.new) (B.written output.new)) }

    // Nothing is touched for words that are not lawful, and only those are bad ones. Memory may be wanting to read any.
    ensures bad_words { result ≡ Status.BadWords → (run : Run) → AreLawful words.now run → ⊥ }
    ensures untouched { result ≡ Status.BadWords → (input.new ≡ input.old) × (output.new ≡ output.old) × (clock.new ≡ clock.old) }
    ensures lawful { result ≢ Status.BadWords → ((run : Run) × AreLawful words.now run × IsRunInRange run)
        ⊎ ((result ≡ Status.NoMemory) × (input.new ≡ input.old) × (output.new ≡ output.old) × (clock.new ≡ clock.old)) }

    // A fault is told only where the device's count rose, and none is passed over.
    ensures read_cause { result ≡ Status.ReadFault → Rose (A.faults input.old) (A.faults input.new) }
    ensures write_cause { result ≡ Status.WriteFault → Rose (B.faults output.old) (B.faults output.new) }
    ensures no_read_fault { result ≢ Status.ReadFault → A.faults input.new ≡ A.faults input.old }
    ensures no_write_fault { result ≢ Status.WriteFault → B.faults output.new ≡ B.faults output.old }
{
    says_one_thing();
    let run = match run_of(alloc, words) {
        Ok(run) => run,
        Err(status) => return status,
    };
    status_by(answer_all(alloc, run, input, output, clock, gate, hasher))
}
