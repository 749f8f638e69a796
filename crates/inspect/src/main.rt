//! `inspect`, `inspect NAMESPACE KEY...` or `inspect NAMESPACE @EPOCH KEY...`: reads a stream of messages from standard input,
//! and prints each as a line of JSON, with committees also whether each signature and certificate is valid, and then a line
//! for the fault, if there is one. `inspect --verdicts 64`, or 48 or 96, with nothing, PARTICIPANTS or @EPOCH PARTICIPANTS...
//! behind it reads signatures of so many bytes and the caller's verdict.
#![tactic(auto)]

use simplex_audit::audit::Watched;
use simplex_cli::program::Program;
use simplex_cli::start::start;
use std::env;
use std::process::ExitCode;

fn main(rt: HostRuntime) -> ExitCode {
    let number = start(
        rt.alloc(),
        Program::Inspect,
        env::args(&rt),
        &mut Watched::new(rt.stdin()),
        &mut Watched::new(rt.stdout()),
        &mut Watched::new(rt.stderr()),
    );
    ExitCode::from(number)
}
