//! `audit_split [--signature 32|48|64|96] [--seed NUMBER] BOUND CLASSES PREFIX FILE...`: cuts the streams of messages in the
//! files by the rounds of their messages, so that each part can be audited apart. To `PREFIX.0`, `PREFIX.1` and so on, one file
//! for each class of rounds, it writes the messages of that class, files in their order and messages in theirs. It writes a
//! line of each file to standard output, and verifies nothing. It ends with the statuses of `audit`.
#![tactic(auto)]

use simplex_audit::audit::Watched;
use simplex_splitting::start::start_split;
use std::env;
use std::process::ExitCode;

fn main(rt: HostRuntime) -> ExitCode {
    let number = start_split(
        rt.alloc(),
        &rt,
        env::args(&rt),
        &mut Watched::new(rt.stdout()),
        &mut Watched::new(rt.stderr()),
    );
    ExitCode::from(number)
}
