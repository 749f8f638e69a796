//! How `audit_live` reads and judges inputs, for contracts alone.

ghost use Rattle.simplex_live.specs.Ending.{LiveBases};

use simplex_audit::basis::Audited;
use simplex_scheme::scheme::Sha256Digest;
use simplex_schemes::plain::Plain;
use simplex_schemes::vouched::{Role48, Role64, Role96, Vouched};

/// Has the bases of inputs.
pub trait Judging {
    /// How messages are read and judged: under plain keys, and by verdicts of each size.
    ghost bases: { LiveBases };
}

/// The inputs that `audit_live` listens to.
pub enum Inputs {}

impl Judging for Inputs {
    ghost bases = { record {
      plain = ⟦<Plain as Audited<Sha256Digest>>⟧.basis;
      of48 = ⟦<Vouched<Role48, 49> as Audited<Sha256Digest>>⟧.basis;
      of64 = ⟦<Vouched<Role64, 65> as Audited<Sha256Digest>>⟧.basis;
      of96 = ⟦<Vouched<Role96, 97> as Audited<Sha256Digest>>⟧.basis;
    } };
}
