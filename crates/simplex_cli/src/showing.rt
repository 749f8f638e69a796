//! How `inspect` reads and shows streams, for contracts alone.

ghost use Rattle.simplex_cli.specs.Inspecting.{LinesUnder};

use simplex_inspect::basis::Inspected;
use simplex_scheme::scheme::Sha256Digest;
use simplex_schemes::plain::Plain;
use simplex_schemes::vouched::{Role48, Role64, Role96, Vouched};

/// Has the lines of streams.
pub trait Showing {
    /// How messages are read, and the line of each: by plain keys, and by verdicts for each size of a signature.
    ghost lines: { LinesUnder };
}

/// The streams that `inspect` shows.
pub enum Streams {}

impl Showing for Streams {
    ghost lines = { record {
      plain = ⟦<Plain as Inspected<Sha256Digest>>⟧.lines;
      of48 = ⟦<Vouched<Role48, 49> as Inspected<Sha256Digest>>⟧.lines;
      of64 = ⟦<Vouched<Role64, 65> as Inspected<Sha256Digest>>⟧.lines;
      of96 = ⟦<Vouched<Role96, 97> as Inspected<Sha256Digest>>⟧.lines;
    } };
}
