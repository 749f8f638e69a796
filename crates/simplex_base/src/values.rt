//! What `==`, `cmp` and `clone` return for values that have parts. That `Hash` agrees with `==` is a law of its own.

ghost use Rattle.std.specs.Prelude.{◌≡◌, Bool};
ghost use Rattle.std.specs.declared.cmp.Ordering.{Ordering};

/// A type whose values are equal exactly where their parts are, each by its own `==`.
pub trait EqByParts: Eq {
    /// Whether the parts of two values are equal.
    ghost same: { Self → Self → Bool };

    /// It is what `==` returns.
    ghost equal: { (x y : Self) → Self.eq x y ≡ same x y };
}

/// A type whose values are ordered by their parts, one after another, each by its own `cmp`.
pub trait OrdByParts: Ord {
    /// How the parts of two values compare.
    ghost order: { Self → Self → Ordering };

    /// It is what `cmp` returns.
    ghost ordered: { (x y : Self) → Self.cmp x y ≡ order x y };
}

/// A type whose clones are the same value.
pub trait ExactClone: Clone {
    /// What `clone` returns is the value that was cloned.
    ghost exact: { (x y : Self) → Self.is_clone x y → y ≡ x };
}

/// A type whose clones need no memory.
pub trait InfallibleClone: Clone {
    /// `clone` of a value never returns `AllocError`.
    ghost infallible: { (x : Self) → Self.is_infallible x };
}

/// A type whose clones are of the same parts, where the clone of a part is what its type says.
pub trait CloneByParts: Clone {
    /// The second value is made of clones of the parts of the first.
    ghost copied: { Self → Self → Type 0 };

    /// So is what `clone` returns of the first.
    ghost cloned: { (x y : Self) → Self.is_clone x y → copied x y };
}
