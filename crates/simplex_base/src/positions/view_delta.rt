//! Numbers of views.

ghost use Rattle.std.specs.Prelude.{◌≡◌, ℕ};

use std::marker::Model;

/// A number of views, from 0 to 2^64 - 1.
#[derive(Clone, Copy, Debug, PartialEq, Eq, PartialOrd, Ord, Hash)]
pub struct ViewDelta(u64);

impl Model for ViewDelta {
    ghost Value = { ℕ };

    ghost view = { λ delta. delta.0 };

    ghost inverse = { λ number. record { 0 = number } };
}

impl ViewDelta {
    /// This many views.
    pub fn new(views: u64) -> Self
        ensures { result ≡ views }
    {
        ViewDelta(views)
    }

    /// The number of views.
    pub fn get(self) -> u64
        ensures { result ≡ self }
    {
        self.0
    }
}
