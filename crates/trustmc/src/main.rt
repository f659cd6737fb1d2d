//! `trustmc`: a store that speaks memcached's text protocol on standard input and output.
#![tactic(auto)]

use mc_top::run_process;
use std::process::ExitCode;
use tm_base::{StdSink, StdSource};

fn main(rt: HostRuntime) -> ExitCode {
    let mut input = StdSource::new(rt.stdin());
    let mut output = StdSink::new(rt.stdout());
    run_process(&rt, &mut input, &mut output)
}
