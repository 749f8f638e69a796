//! Many certificates verified at once.

ghost use Rattle.std.specs.Prelude.{◌≡◌, ◌<◌, IfOk, length, map};
ghost use Rattle.simplex_scheme.specs.Subject.{subject_value, Notarizes, Nullifies, Finalizes};

use simplex_scheme::scheme::{CertificateVerifier, Digest, Subject};
use simplex_votes::types::{Finalization, Notarization, Nullification};
use std::alloc::{AllocError, Global};

/// Whether each certificate certifies its subject: item by item what `verify_certificate` returns.
///
/// `verify_all` of the scheme is called on all items together. A part for which it returns false is cut in the
/// middle, and it is called on both halves, down to single items. So it is called once where every certificate is
/// valid, and never on an empty list. For n items the recursion is at most log2 n deep, rounded up.
///
/// The results are allocated before anything is verified; `AllocError` only where that allocation failed.
pub fn verify_certificates<'a, S: CertificateVerifier<D>, D: Digest>(
    alloc: Global,
    scheme: &S,
    items: &[(Subject<'a, D>, &'a S::Certificate)],
) -> Result<Vec<bool>, AllocError>
    ensures { IfOk result (λ answers.
        answers.items ≡ map (λ item.
        S.certified scheme.now (subject_value item.0) item.1.now) items.now) }
{
    let mut answers = vec![in alloc; false; items.len()]?;
    if !items.is_empty() {
        bisect(scheme, items, &mut answers);
    }
    Ok(answers)
}

/// Whether each notarization is certified, over the messages themselves: item by item what `verify` returns.
/// `AllocError` only where the allocation of the results failed.
pub fn verify_notarizations<S: CertificateVerifier<D>, D: Digest>(
    alloc: Global,
    scheme: &S,
    messages: &[Notarization<S, D>],
) -> Result<Vec<bool>, AllocError>
    ensures { IfOk result (λ answers.
        answers.items ≡ map (λ n.
        S.certified scheme.now (Notarizes n.proposal) n.certificate) messages.now) }
{
    messages
        .iter()
        .map(|notarization| notarization.verify(scheme))
        .collect(alloc)
}

/// Whether each nullification is certified, one by one as [`verify_notarizations`] does.
pub fn verify_nullifications<S: CertificateVerifier<D>, D: Digest>(
    alloc: Global,
    scheme: &S,
    messages: &[Nullification<S>],
) -> Result<Vec<bool>, AllocError>
    ensures { IfOk result (λ answers.
        answers.items ≡ map (λ n.
        S.certified scheme.now (Nullifies n.round) n.certificate) messages.now) }
{
    messages
        .iter()
        .map(|message| message.verify::<D>(scheme))
        .collect(alloc)
}

/// Whether each finalization is certified, one by one as [`verify_notarizations`] does.
pub fn verify_finalizations<S: CertificateVerifier<D>, D: Digest>(
    alloc: Global,
    scheme: &S,
    messages: &[Finalization<S, D>],
) -> Result<Vec<bool>, AllocError>
    ensures { IfOk result (λ answers.
        answers.items ≡ map (λ n.
        S.certified scheme.now (Finalizes n.proposal) n.certificate) messages.now) }
{
    messages
        .iter()
        .map(|finalization| finalization.verify(scheme))
        .collect(alloc)
}

/// Writes the results for the items of a part that is not empty. A part that the scheme accepts is true throughout,
/// and an item that it refuses alone is false; any other part is cut in the middle.
fn bisect<'a, S: CertificateVerifier<D>, D: Digest>(
    scheme: &S,
    items: &[(Subject<'a, D>, &'a S::Certificate)],
    answers: &mut [bool],
)
    requires some { 0 < length items.now }
    requires places { length answers.old ≡ length items.now }
    ensures { answers.new ≡ map (λ item.
        S.certified scheme.now (subject_value item.0) item.1.now) items.now }
{
    let accepted = scheme.verify_all(items);
    if accepted || items.len() == 1 {
        answers.fill(accepted);
        return;
    }
    let middle = items.len() / 2;
    let (first, second) = items.split_at(middle);
    let (first_answers, second_answers) = answers.split_at_mut(middle);
    bisect(scheme, first, first_answers);
    bisect(scheme, second, second_answers);
}
