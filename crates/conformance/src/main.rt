//! `conformance`: answers each test vector of standard input by one line of standard output (docs/CONFORMANCE.md).
#![tactic(auto)]

mod answers;
mod audits;
mod clients;
mod floors;
mod news;

use std::io;

fn main(rt: HostRuntime) -> io::Result<()> {
    for line in rt.lines(rt.alloc()) {
        let answer = answers::answer(rt.alloc(), line?.as_str())?;
        println!(rt; "{answer}")?;
    }
    Ok(())
}
