//! Rounds whose certificates contradict, and the line that reports one.

ghost use Rattle.std.specs.Prelude.{◌≡◌, IfOk, string_bytes};
ghost use Rattle.simplex_rules.specs.Splits.{split_line};

use simplex_base::positions::Round;
use std::alloc::{AllocError, Global};

/// A round in which two messages whose certificates verify contradict: two notarizations or two finalizations of
/// different proposals, or a nullification and a finalization.
#[derive(Clone, Copy, Debug, PartialEq, Eq)]
pub struct Split {
    /// The round of both messages.
    pub round: Round,
    /// How many participants are accused in the round, each counted once, for any number of kinds.
    pub named: u32,
    /// f + 1, f being how many of the round's committee may lie. At least this many signed both certificates: two quorums
    /// of n participants share at least n - 2f, which is at least f + 1.
    pub least: u32,
}

impl Split {
    /// The line that reports it, without the newline: epoch, view, the word `split`, `named` and `least`, separated by
    /// single blanks. Numbers are decimal. `AllocError` only where an allocation failed.
    pub fn line(&self, alloc: Global) -> Result<String, AllocError>
        ensures { IfOk result (λ line. string_bytes line ≡ split_line self.now) }
    {
        let (epoch, view) = (self.round.epoch().get(), self.round.view().get());
        let (named, least) = (self.named, self.least);
        format!(in alloc; "{epoch} {view} split {named} {least}")
    }
}
