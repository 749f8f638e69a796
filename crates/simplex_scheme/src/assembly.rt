//! Which attestations make a certificate.

ghost use Rattle.std.specs.Prelude.{◌≡◌, ◌↔◌, ◌<◌, IsTrue, IfOk, All, length, map, nat_eq};
ghost use Rattle.std.specs.List.{IsDistinct, list_any};
ghost use Rattle.simplex_scheme.specs.Committee.{signers_of};

use crate::scheme::{Attestation, Attributable, CertificateScheme};
use crate::set::Set;
use simplex_base::positions::Participant;
use std::alloc::{AllocError, Global};

/// Whether the signers are distinct and in the committee: the condition of
/// [`assemble`](crate::scheme::Scheme::assemble). It takes the time and the memory of [`are_distinct`].
pub fn can_assemble<S: CertificateScheme>(
    alloc: Global,
    scheme: &S,
    attestations: &[Attestation<S>],
) -> bool
    ensures { IsTrue result ↔
        (IsDistinct nat_eq (signers_of attestations.now) ×
        All (λ a. a.signer < length (S.keys scheme.now)) attestations.now) }
{
    are_distinct(alloc, attestations, scheme.participants().len())
}

/// Whether the signers are distinct and below this number of participants. Signers in ascending order take linear time and
/// no memory. In any other order they are sorted, in 4 bytes each. Where that memory is refused, each signer that is below
/// an earlier one is compared to all before it.
pub fn are_distinct<T: Attributable>(alloc: Global, signed: &[T], participants: usize) -> bool
    ensures { IsTrue result ↔
        (IsDistinct nat_eq (map T.signer_of signed.now) ×
        All (λ one. T.signer_of one < participants) signed.now) }
{
    if !signed.is_sorted_by(|first, second| first.signer() < second.signer()) {
        if let Ok(signers) = signers(alloc, signed) {
            return are_members(signed, participants) && Set::try_from_vec(signers).is_ok();
        }
    }
    are_distinct_in_place(signed, participants)
}

/// The signers, in the order of what they signed.
fn signers<T: Attributable>(alloc: Global, signed: &[T]) -> Result<Vec<Participant>, AllocError>
    ensures { IfOk result (λ signers. signers.items ≡ map T.signer_of signed.now) }
{
    signed.iter().map(|one| one.signer()).collect(alloc)
}

/// Whether the signers are below this number of participants.
fn are_members<T: Attributable>(signed: &[T], participants: usize) -> bool
    ensures { IsTrue result ↔ All (λ one. T.signer_of one < participants) signed.now }
{
    signed
        .iter()
        .all(|one| (one.signer().get() as usize) < participants)
}

/// What [`are_distinct`] returns, without memory.
fn are_distinct_in_place<T: Attributable>(signed: &[T], participants: usize) -> bool
    ensures { IsTrue result ↔
        (IsDistinct nat_eq (map T.signer_of signed.now) ×
        All (λ one. T.signer_of one < participants) signed.now) }
{
    let mut above = 0;
    'signed: for place in 0..signed.len() {
        let signer = signed[place].signer();
        let number = signer.get() as usize;
        if number >= participants {
            return false;
        }
        if number >= above {
            above = number + 1;
        } else if has_signer(&signed[..place], signer) {
            return false;
        }
    }
    true
}

/// Whether some of these are signed by this participant.
fn has_signer<T: Attributable>(signed: &[T], signer: Participant) -> bool
    ensures { result ≡ list_any (λ one. nat_eq (T.signer_of one) signer) signed.now }
{
    signed.iter().any(|one| one.signer() == signer)
}
