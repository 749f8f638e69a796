//! The validity of a signature and of a certificate.

ghost use Rattle.std.specs.Prelude.{◌≡◌};
ghost use Rattle.simplex_inspect.specs.Validity.{validity_of_signature, validity_of_certificate};

/// Whether a signature or a certificate is valid, and why not.
#[derive(Clone, Copy, Debug, PartialEq, Eq)]
pub enum Validity {
    /// It is valid.
    Valid,
    /// The epoch has no committee.
    NoCommittee,
    /// Of a signature: its signer is no participant of the epoch's committee.
    OutsideSigner,
    /// Of a signature: its signer is a participant, and it does not verify.
    WrongSignature,
    /// Of a certificate: it lists fewer attestations than a quorum.
    TooFew,
    /// Of a certificate: it lists a quorum or more, and the scheme does not accept it. For the schemes here that is because the
    /// signature of an attestation that it lists is not valid; another scheme may ask for more than valid signatures.
    WrongAttestation,
}

/// The validity of a signature, from whether it is valid, how many participants the epoch's committee has (0 where there is
/// none), and the number of its signer.
pub(crate) fn validity_of_signature(valid: bool, size: usize, signer: u32) -> Validity
    ensures { result ≡ validity_of_signature valid size signer }
{
    if valid {
        Validity::Valid
    } else if size == 0 {
        Validity::NoCommittee
    } else if (signer as usize) < size {
        Validity::WrongSignature
    } else {
        Validity::OutsideSigner
    }
}

/// The validity of a certificate, from whether it is valid, how many participants the epoch's committee has (0 where there
/// is none), how many of them are a quorum, and how many attestations it lists.
pub(crate) fn validity_of_certificate(
    valid: bool,
    size: usize,
    quorum: usize,
    count: usize,
) -> Validity
    ensures { result ≡ validity_of_certificate valid size quorum count }
{
    if valid {
        Validity::Valid
    } else if size == 0 {
        Validity::NoCommittee
    } else if count < quorum {
        Validity::TooFew
    } else {
        Validity::WrongAttestation
    }
}
