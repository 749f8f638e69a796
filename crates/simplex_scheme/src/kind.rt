//! The kinds of votes.

ghost use Rattle.std.specs.Prelude.{◌≡◌};

/// The kind of a vote.
#[derive(Clone, Copy, Debug, PartialEq, Eq, PartialOrd, Ord)]
pub enum VoteKind {
    /// For a proposal.
    Notarize,
    /// To give a round up.
    Nullify,
    /// That a proposal is final.
    Finalize,
}

impl VoteKind {
    ghost use Rattle.simplex_scheme.specs.Kind.{kind_word};

    /// The word for the kind.
    pub fn word(self) -> &'static str
        ensures { result.now ≡ kind_word self }
    {
        match self {
            VoteKind::Notarize => "notarize",
            VoteKind::Nullify => "nullify",
            VoteKind::Finalize => "finalize",
        }
    }
}
