//! Tests of audits in parts: that all ways of cutting a stream give its report, also in pieces of a byte, and that the order of
//! messages does not matter for what is accused.
#![tactic(auto)]

#[cfg(test)]
mod begun;
#[cfg(test)]
mod called;
#[cfg(test)]
mod classed;
#[cfg(test)]
mod ordered;
#[cfg(test)]
mod parted;
#[cfg(test)]
mod pieced;
#[cfg(test)]
mod shown;
