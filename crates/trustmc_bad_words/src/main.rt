//! `trustmc` on words that are none of its commands: nothing is read and nothing written, and the exit status is 1.
#![tactic(auto)]

use mc_top::run_process;
use std::process::ExitCode;
use tm_base::{StdSink, StdSource};

fn main(rt: HostRuntime) -> ExitCode {
    let mut input = StdSource::new(rt.stdin());
    let mut output = StdSink::new(rt.stdout());
    run_process(&rt, &mut input, &mut output)
}
