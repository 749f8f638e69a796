//! How `audit_split` reads inputs, for contracts alone.

ghost use Rattle.simplex_splitting.specs.Ending.{Readings};

use simplex_base::codec::Read;
use simplex_evidence::types::Activity;
use simplex_scheme::scheme::Sha256Digest;
use simplex_schemes::plain::Plain;
use simplex_schemes::vouched::{Role48, Role64, Role96, Vouched};

/// Has what is read of inputs.
pub trait Reading {
    /// What it means that so much was read of an input.
    ghost readings: { Readings };
}

/// The inputs that `audit_split` cuts.
pub enum Inputs {}

impl Reading for Inputs {
    ghost use Rattle.simplex_base.specs.Format.{format_under};
    ghost use Rattle.simplex_splitting.specs.Splitting.{IsReadAs};

    ghost readings = { record {
      plain = λ bound. IsReadAs (format_under ⟦<Activity<Plain, Sha256Digest> as Read>⟧ bound);
      of48 = λ bound. IsReadAs (format_under ⟦<Activity<Vouched<Role48, 49>, Sha256Digest> as Read>⟧ bound);
      of64 = λ bound. IsReadAs (format_under ⟦<Activity<Vouched<Role64, 65>, Sha256Digest> as Read>⟧ bound);
      of96 = λ bound. IsReadAs (format_under ⟦<Activity<Vouched<Role96, 97>, Sha256Digest> as Read>⟧ bound);
    } };
}
