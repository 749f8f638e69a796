//! What the tests begin with.

use simplex_audit::audit::Committees;
use simplex_base::positions::{Epoch, Round, TermLength, View, ViewDelta};
use simplex_lead::Lookahead;
use simplex_monitor::monitor::Monitor;
use simplex_schemes::marked::{Marked, MarkedDigest};
use std::alloc::{AllocError, Global};

/// One marked committee of four for every epoch.
pub(crate) fn four(alloc: Global) -> Result<Committees<Marked>, AllocError> {
    Ok(Committees::every(Marked::new(alloc, 4, None)?))
}

/// A monitor that begins at view 1, retains 2 views and looks 1 view ahead.
pub(crate) fn begin<'a>(
    alloc: Global,
    committees: &'a Committees<Marked>,
) -> Monitor<'a, Marked, MarkedDigest> {
    let lookahead = Lookahead {
        term_length: TermLength::new(100),
        optimistic_views: ViewDelta::new(1),
    };
    let start = Round::new(Epoch::new(0), View::new(1));
    Monitor::new(alloc, committees, start, ViewDelta::new(2), lookahead)
}
