//! Selects the certificates that certify.

ghost use Rattle.std.specs.Prelude.{◌≡◌, IfOk, map};
ghost use Rattle.std.specs.List.{filter};
ghost use Rattle.simplex_scheme.specs.Subject.{subject_value};

use simplex_evidence::types::verify_certificates;
use simplex_scheme::scheme::{CertificateVerifier, Digest, Subject};
use std::alloc::{AllocError, Global};

/// The items whose certificate certifies their subject, in the order given. `AllocError` only where an allocation failed.
pub fn resolve<'a, 'b, S: CertificateVerifier<D>, D: Digest>(
    alloc: Global,
    scheme: &S,
    items: &'b [(Subject<'a, D>, &'a S::Certificate)],
) -> Result<Vec<&'b (Subject<'a, D>, &'a S::Certificate)>, AllocError>
    ensures { IfOk result (λ selected.
        map (λ item. item.now) selected.items ≡
        filter (λ item. S.certified scheme.now (subject_value item.0) item.1.now) items.now) }
{
    let answers = verify_certificates(alloc, scheme, items)?;
    let mut selected = Vec::new(alloc);
    for place in 0..items.len() {
        if answers[place] {
            selected.push(&items[place])?;
        }
    }
    Ok(selected)
}
