//! `audit_stored NAMESPACE KEY...` or `audit_stored NAMESPACE @EPOCH KEY...`: `audit` for a stored stream. It takes the same
//! arguments, prints the same lines and ends with the same statuses, but holds all of standard input, and verifies only the
//! votes of suspects and the certificates of their rounds. A suspect is a signer of a committee, in a round where two votes
//! that claim to be that signer's contradict.
#![tactic(auto)]

use simplex_audit::audit::Watched;
use simplex_cli::program::{Program, Verification};
use simplex_cli::start::start;
use std::env;
use std::process::ExitCode;

fn main(rt: HostRuntime) -> ExitCode {
    let number = start(
        rt.alloc(),
        Program::Audit(Verification::Deferred),
        env::args(&rt),
        &mut Watched::new(rt.stdin()),
        &mut Watched::new(rt.stdout()),
        &mut Watched::new(rt.stderr()),
    );
    ExitCode::from(number)
}
