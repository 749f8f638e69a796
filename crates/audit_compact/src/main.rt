//! `audit_compact [--floor EPOCH VIEW] NAMESPACE KEY...` or `audit_compact [--floor EPOCH VIEW] NAMESPACE @EPOCH KEY...`: reads
//! a stream of messages from standard input, and writes to standard output a shorter one that can stand for it: the messages
//! that were news when they came, from the floor on. With any messages before and any behind, an audit by the same committees
//! has the same lines of these rounds. It ends with the statuses of `audit`.
#![tactic(auto)]

use simplex_audit::audit::Watched;
use simplex_cli::program::Program;
use simplex_cli::start::start;
use std::env;
use std::process::ExitCode;

fn main(rt: HostRuntime) -> ExitCode {
    let number = start(
        rt.alloc(),
        Program::Compact,
        env::args(&rt),
        &mut Watched::new(rt.stdin()),
        &mut Watched::new(rt.stdout()),
        &mut Watched::new(rt.stderr()),
    );
    ExitCode::from(number)
}
