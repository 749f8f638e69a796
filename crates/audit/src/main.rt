//! `audit NAMESPACE KEY...` or `audit NAMESPACE @EPOCH KEY...`: reads a stream of messages from standard input, and prints a
//! line for each signer, round and kind with two contradictory votes that verify, and then one for each round whose
//! certificates contradict.
#![tactic(auto)]

use simplex_audit::audit::Watched;
use simplex_cli::program::{Program, Verification};
use simplex_cli::start::start;
use std::env;
use std::process::ExitCode;

fn main(rt: HostRuntime) -> ExitCode {
    let number = start(
        rt.alloc(),
        Program::Audit(Verification::Full),
        env::args(&rt),
        &mut Watched::new(rt.stdin()),
        &mut Watched::new(rt.stdout()),
        &mut Watched::new(rt.stderr()),
    );
    ExitCode::from(number)
}
