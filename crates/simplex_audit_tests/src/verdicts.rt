//! Committees whose signatures are their verdicts.

ghost use Rattle.std.proofs.Common.{lit<, lit≤};

use simplex_base::codec::fixed_bytes::Role;
use simplex_schemes::vouched::Vouched;

/// The role of a signature that is its verdict.
pub enum Verdict {}

impl Role<1> for Verdict {
    ghost sized = { (lit< tt, lit≤ tt) };
}

/// A committee whose signatures are their verdicts.
pub type Committee = Vouched<Verdict, 1>;
