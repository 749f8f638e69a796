//! What a row says of a message of consensus, and where one ends that is not decoded.

ghost use Rattle.std.specs.Prelude.{◌≡◌, None, true, IfSome, length};
ghost use Rattle.simplex_evidence.specs.Activity.{activity_tag, votes_in};
ghost use Rattle.simplex_shards.specs.Skips.{IsEvidence, IsLeftBehind, SkipsBehind};

use crate::index::{Row, Tabular};
use crate::peek::{Peek, Peeked};
use crate::skips::{SkipCertificate, skip_attestation, skip_certified, skip_signed, take_round};
use simplex_base::codec::{Encoding, Read};
use simplex_base::positions::{Epoch, Round, Roundable, View};
use simplex_evidence::types::{Activity, Contents};
use simplex_scheme::scheme::{CertificateScheme, Digest, Listing};

impl<S: Listing<D>, D: Digest> Tabular for Activity<S, D> {
    ghost use Rattle.std.specs.Prelude.{refl};
    ghost use Rattle.simplex_evidence.specs.Activity.{activity_round, activity_tag, votes_in};
    ghost use Rattle.simplex_shards.specs.Rows.{message_row};

    ghost row_of = { message_row ⟦<Activity<S, D> as Encoding>⟧.encoding S.listed };

    fn row(&self, place: usize, size: usize) -> Row {
        let round = self.round();
        Row {
            epoch: round.epoch().get(),
            view: round.view().get(),
            place,
            length: size,
            attestations: count_attestations(self),
            kind: tag_of(self),
        }
    }

    ghost row_is = { λ place message. record { round_is = refl; place_is = refl; length_is = refl } };
}

/// How many attestations a message has.
fn count_attestations<S: Listing<D>, D: Digest>(message: &Activity<S, D>) -> usize
    ensures { result ≡ length (votes_in S.listed message.now) }
{
    match message.contents() {
        Contents::Vote(_) => 1,
        Contents::Certificate(_, certificate) => S::attestations(certificate).len(),
        Contents::Evidence(_, _) => 2,
    }
}

/// The tag with which a message is encoded.
fn tag_of<S: CertificateScheme, D: Digest>(message: &Activity<S, D>) -> u32
    ensures { result ≡ activity_tag message.now }
{
    match message {
        Activity::Notarize(_) => 0,
        Activity::Notarization(_) => 1,
        Activity::Certification(_) => 2,
        Activity::Nullify(_) => 3,
        Activity::Nullification(_) => 4,
        Activity::Finalize(_) => 5,
        Activity::Finalization(_) => 6,
        Activity::ConflictingNotarize(_) => 7,
        Activity::ConflictingFinalize(_) => 8,
        Activity::NullifyFinalize(_) => 9,
    }
}

impl<S: SkipCertificate<D>, D: Digest> Peek for Activity<S, D> {
    // If a scheme skips all certificates, evidence alone is decoded.
    ghost is_decoded = { λ message. S.skips_all ≡ true → IsEvidence message };

    fn peek(bytes: &[u8], bound: u32) -> Option<Peeked> {
        let Some((tag, body)) = bytes.split_first() else {
            return None;
        };
        let (epoch, view, rest) = take_round(body)?;
        let rest = skip_behind_round::<S, D>(*tag, rest, bound)?;
        Some(Peeked {
            round: Round::new(Epoch::new(epoch), View::new(view)),
            length: bytes.len() - rest.len(),
        })
    }
}

/// The bytes after a message of this tag, from those after its round on. Evidence is never skipped.
fn skip_behind_round<S: SkipCertificate<D>, D: Digest>(
    tag: u8,
    bytes: &[u8],
    bound: u32,
) -> Option<&[u8]>
    ensures rest { IfSome result (λ rest. SkipsBehind (⟦<Activity<S, D> as Read>⟧.reading bound)
        ⟦<Activity<S, D> as Roundable>⟧.round_of tag bytes.now rest.now) }
    ensures none { S.skips_all ≡ true → result ≡ None → IsLeftBehind
        (⟦<Activity<S, D> as Read>⟧.reading bound) (λ m. IsEvidence m) tag bytes.now }
{
    match tag {
        0 | 5 => skip_signed::<S, D>(bytes),
        1 | 6 => skip_certified::<S, D>(bytes, bound),
        // A certification is a notarization with another tag.
        2 => skip_certified::<S, D>(bytes, bound),
        3 => {
            let (_, rest) = skip_attestation::<S>(bytes)?;
            Some(rest)
        }
        4 => S::skip_certificate(bytes, bound),
        _ => None,
    }
}
