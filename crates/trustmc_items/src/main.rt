//! `trustmc` on words that say numbers: five trustees, and one item in each class, so that of two keys of one class only the
//! second one is left.
#![tactic(auto)]

use mc_top::run_process;
use std::process::ExitCode;
use tm_base::{StdSink, StdSource};

fn main(rt: HostRuntime) -> ExitCode {
    let mut input = StdSource::new(rt.stdin());
    let mut output = StdSink::new(rt.stdout());
    run_process(&rt, &mut input, &mut output)
}
