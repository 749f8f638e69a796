//! The programs, and how they speak of themselves.

ghost use Rattle.std.specs.Prelude.{◌≡◌, ◌≤◌, length};
ghost use Rattle.simplex_cli.specs.Program.{name_of, usage_of};

/// Which signatures a run verifies, and what it holds. The text, the fault and the status of a run are the same either way,
/// unless an allocation fails.
#[derive(Clone, Copy, Debug, PartialEq, Eq)]
pub enum Verification {
    /// Those of the votes and certificates that can change the state of their round. The input is read in pieces; only the
    /// bytes after the last whole message are held. If these are refused whatever follows, the rest is read and dropped.
    Full,
    /// Only those of the votes of suspects and of the certificates of their rounds. The whole input is held.
    Deferred,
}

/// The programs.
#[derive(Clone, Copy)]
pub enum Program {
    /// `audit`, which verifies in full, and `audit_stored`, which defers it.
    Audit(Verification),
    /// `audit_compact`, which keeps of a stream what is news.
    Compact,
    /// `inspect`.
    Inspect,
}

impl Program {
    /// The name that its complaints have. Both audits say `audit`.
    pub(crate) fn name(self) -> &'static str
        ensures name { result.now ≡ name_of self }
        ensures short { length result.now ≤ 13 }
    {
        match self {
            Program::Audit(_) => "audit",
            Program::Compact => "audit_compact",
            Program::Inspect => "inspect",
        }
    }

    /// What stands after its name where the usage is said.
    pub(crate) fn usage(self) -> &'static str
        ensures usage { result.now ≡ usage_of self }
        ensures short { length result.now ≤ 52 }
    {
        match self {
            Program::Audit(_) => " NAMESPACE KEY...\n",
            Program::Compact => " [--floor EPOCH VIEW] NAMESPACE KEY...\n",
            Program::Inspect => " [NAMESPACE KEY...|--verdicts BYTES [PARTICIPANTS]]\n",
        }
    }
}
