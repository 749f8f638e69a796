//! How texts name committees.

ghost use Rattle.std.specs.Prelude.{◌≡◌, ◌⊎◌, Err, IfOk, IfErr, map, string_bytes};
ghost use Rattle.simplex_cli.specs.Arguments.{IsNaming, NameNone, Naming};

use crate::status::Failure;
use std::alloc::Global;

/// A committee that texts can name, such as by the keys of its participants.
pub trait Named: Sized + Drop {
    /// What the texts of all committees have in common, such as a namespace.
    type Common;

    /// Which texts name which committee.
    ghost naming: { Self.Common → Naming Self };

    /// There is a text at least, and none begins a group.
    ghost is_naming: { (common : Self.Common) → IsNaming (naming common) };

    /// The committee that texts name: `Failure::Usage` where they name none, `Failure::OutOfMemory` where an allocation failed
    /// before that was found.
    fn parse(alloc: Global, common: &Self::Common, texts: &[String]) -> Result<Self, Failure>
        ensures committee { IfOk result ((naming common.now).names (map string_bytes texts.now)) }
        ensures usage { result ≡ Err Failure.Usage →
            NameNone (naming common.now) (map string_bytes texts.now) }
        ensures memory { result ≡ Err Failure.OutOfMemory →
            (naming common.now).may (map string_bytes texts.now) }
        ensures failure { IfErr result (λ e. (e ≡ Failure.Usage) ⊎ (e ≡ Failure.OutOfMemory)) };
}
