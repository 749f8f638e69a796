//! A committee for the streams of these tests.

ghost use Rattle.std.specs.Prelude.{◌≤◌};

use simplex_audit::audit::Committees;
use simplex_schemes::marked::Marked;
use std::alloc::Global;
use std::test::Fail;

/// One marked committee of this many participants for every epoch.
pub(crate) fn marked(alloc: Global, participants: u32) -> Result<Committees<Marked>, Fail>
    requires { 1 ≤ participants }
{
    Ok(Committees::every(Marked::new(alloc, participants, None)?))
}
