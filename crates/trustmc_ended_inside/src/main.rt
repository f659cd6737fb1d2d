//! `trustmc` on an input that ends inside a command: what came whole is answered, and the exit status is 8. Its text
//! goes to standard error, so it does not stand among the replies.
#![tactic(auto)]

use mc_top::run_process;
use std::process::ExitCode;
use tm_base::{StdSink, StdSource};

fn main(rt: HostRuntime) -> ExitCode {
    let mut input = StdSource::new(rt.stdin());
    let mut output = StdSink::new(rt.stdout());
    run_process(&rt, &mut input, &mut output)
}
