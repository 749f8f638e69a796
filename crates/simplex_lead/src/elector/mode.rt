//! What electors depend on.

ghost use Rattle.std.specs.Prelude.{◌≡◌};
ghost use Rattle.std.specs.Option.{option_copied};

/// How an elector uses the certificate that leads to a view.
#[derive(Clone, Copy, Debug, PartialEq, Eq)]
pub enum Mode {
    /// Leaders are fixed when the elector is built, the same for every certificate.
    Scheduled,
    /// Leaders may depend on the certificate.
    Dynamic,
}

impl Mode {
    ghost use Rattle.simplex_lead.specs.Election.{seen};
    ghost use Rattle.simplex_lead.specs.declared.elector.mode.Mode.TheVariants.{Scheduled, Dynamic};

    /// The certificate as the elector is given it: itself where leaders may depend on it, else `None`.
    pub fn input<C>(self, certificate: Option<&C>) -> Option<&C>
        ensures { option_copied result ≡ seen self (option_copied certificate.entry) }
    {
        match self {
            Mode::Scheduled => None,
            Mode::Dynamic => certificate,
        }
    }

    /// What the elector is given before there is a certificate: `Some(None)` where leaders do not depend on it, and
    /// `None` where the elector has to wait for it.
    pub fn early<'a, C>(self) -> Option<Option<&'a C>>
        ensures scheduled { self ≡ Scheduled → result ≡ Some None }
        ensures dynamic { self ≡ Dynamic → result ≡ None }
    {
        match self {
            Mode::Scheduled => Some(None),
            Mode::Dynamic => None,
        }
    }
}
