//! Where the parts of a stream are written: anything that bytes can be appended to, class by class.

ghost use Rattle.std.specs.Prelude.{◌≡◌, ◌↔◌, ◌≢◌, ◌⊎◌, Bool, false, ℕ, List, Option, Err, IsTrue, IfErr, OnOk, map};
ghost use Rattle.std.specs.Io.KnownBytes.{Appends, Keeps};
ghost use Rattle.simplex_splitting.specs.Parts.{AppendEach, BeginEach};
ghost use Rattle.simplex_stream.specs.Text.{AppendsBeginning};

use simplex_stream::run_error::RunError;

/// A part for each class, which bytes can be appended to.
pub trait Parts {
    /// What the part of each class has, if that is known.
    ghost contents: { Self → ℕ → Option (List ℕ) };

    /// Whether bytes could not be appended.
    ghost has_failed: { Self → Bool };

    /// The class of the part that they could not be appended to.
    ghost failed_at: { Self → ℕ };

    /// Appends bytes to the part of a class. `Write` exactly if a part cannot be written, and `OutOfMemory` only after an
    /// allocation failed: then a prefix of the bytes was appended, perhaps none or all.
    fn append(&mut self, class: usize, bytes: &[u8]) -> Result<(), RunError>
        requires { has_failed self.old ≡ false }
        ensures written { OnOk result
            (Appends (contents self.old class) (contents self.new class) bytes.now) }
        ensures beginning { AppendsBeginning (contents self.old class) (contents self.new class) bytes.now }
        ensures others { (other : ℕ) → other ≢ class →
            Keeps (contents self.old other) (contents self.new other) }
        ensures failed { IsTrue (has_failed self.new) ↔ (result ≡ Err RunError.Write) }
        ensures class { result ≡ Err RunError.Write → failed_at self.new ≡ class }
        ensures error { IfErr result (λ e. (e ≡ RunError.Write) ⊎ (e ≡ RunError.OutOfMemory)) };

    /// The class of the part that could not be written; 0 if there is none.
    fn failed_class(&self) -> usize
        ensures { result ≡ failed_at self.now };
}

/// Appends to the part of each class what stands at its place. After an error a prefix of that was appended to each part.
pub(crate) fn append_each<P: Parts>(parts: &mut P, more: &[Vec<u8>]) -> Result<(), RunError>
    requires well { P.has_failed parts.old ≡ false }
    ensures written { OnOk result (AppendEach (P.contents parts.old) (P.contents parts.new)
        (map (λ part. part.items) more.now)) }
    ensures beginning { BeginEach (P.contents parts.old) (P.contents parts.new)
        (map (λ part. part.items) more.now) }
    ensures failed { IsTrue (P.has_failed parts.new) ↔ (result ≡ Err RunError.Write) }
    ensures error { IfErr result (λ e. (e ≡ RunError.Write) ⊎ (e ≡ RunError.OutOfMemory)) }
{
    let mut class = 0;
    'parts: for bytes in more {
        parts.append(class, bytes.as_slice())?;
        class += 1;
    }
    Ok(())
}
