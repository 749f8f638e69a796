//! `audit_live [--retain VIEWS] [--ahead VIEWS] [--keys FILE] [--state FILE] NAMESPACE KEY...`, or with `@EPOCH KEY...`:
//! listens to a stream of messages on standard input for as long as it goes on, and writes to standard output each line of
//! `audit` at once, when the bytes that complete it were read; that of a split again when more are accused there. It follows
//! the network by the valid certificates in the stream, retains so many views before the last finalized one, and takes votes of
//! so many views ahead: so what it holds is bounded whatever anyone sends. It ends with the statuses of `audit`.
#![tactic(auto)]

use simplex_audit::audit::Watched;
use simplex_live::live::start_live;
use std::env;
use std::process::ExitCode;

fn main(rt: HostRuntime) -> ExitCode {
    let number = start_live(
        rt.alloc(),
        &rt,
        env::args(&rt),
        &mut Watched::new(rt.stdin()),
        &mut Watched::new(rt.stdout()),
        &mut Watched::new(rt.stderr()),
    );
    ExitCode::from(number)
}
