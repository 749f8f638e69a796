//! Many certificates verified at once.

ghost use Rattle.std.specs.Prelude.{◌≡◌, IfSome, length};

use crate::judged::{CERTIFICATES, judged};
use simplex_base::codec::{Fixed, Read, decode_cfg};
use simplex_base::positions::{Epoch, Round, View};
use simplex_evidence::types::verify_certificates;
use simplex_scheme::scheme::{CertificateVerifier, Digest, Proposal, Set, Sha256Digest, Subject};
use simplex_schemes::marked::{Marked, MarkedDigest};
use simplex_schemes::plain::{Plain, PlainKey};
use std::alloc::Global;
use std::process::Abort;

/// The value with this encoding in hexadecimal.
fn value<T: Read + Drop>(alloc: Global, cfg: &T::Cfg, encoding: &str) -> Option<T> {
    let bytes = hex::decode(alloc, encoding).ok()?;
    decode_cfg(alloc, bytes.as_slice(), cfg).ok()
}

/// The values with these encodings in hexadecimal.
fn listed<T: Read + Drop>(alloc: Global, cfg: &T::Cfg, encodings: &[&str]) -> Option<Vec<T>> {
    let mut values = Vec::with_capacity(alloc, encodings.len()).ok()?;
    for encoding in encodings {
        values.push(value(alloc, cfg, encoding)?).ok()?;
    }
    Some(values)
}

/// Certificates of these encodings for the proposal with this payload in round (0, 10), under a bound of four, verify as
/// wanted. Returns whether an allocation failed; then a second call over the same list verifies it.
fn is_refused<S: CertificateVerifier<D>, D: Digest>(
    rt: &(impl Abort + AllocGlobal),
    scheme: &S,
    payload: D,
    encodings: &[&str],
    wanted: &[bool],
) -> bool {
    let Some(certificates) = listed::<S::Certificate>(rt.alloc(), &4, encodings) else {
        return true;
    };
    let round = Round::new(Epoch::new(0), View::new(10));
    let proposal = Proposal::new(round, View::new(5), payload);
    let items = certificates.iter().map(|certificate| {
        let subject = Subject::Notarize {
            proposal: &proposal,
        };
        (subject, certificate)
    });
    let Ok(mut pairs) = Vec::with_capacity(rt.alloc(), encodings.len()) else {
        return true;
    };
    if pairs.extend(items).is_err() {
        return true;
    }
    is_answer_refused(rt, scheme, pairs.as_slice(), wanted)
}

/// Certificates verify as wanted. Returns whether an allocation failed; then a second call over the same list verifies it.
fn is_answer_refused<S: CertificateVerifier<D>, D: Digest>(
    rt: &(impl Abort + AllocGlobal),
    scheme: &S,
    pairs: &[(Subject<'_, D>, &S::Certificate)],
    wanted: &[bool],
) -> bool {
    let mut answers = verify_certificates(rt.alloc(), scheme, pairs);
    let refused = answers.is_err();
    if refused {
        answers = verify_certificates(rt.alloc(), scheme, pairs);
    }
    assert!(rt; matches!(&answers, Ok(answers) if answers.as_slice() == wanted));
    refused
}

/// A hundred certificates, of which the one at place 12 has a participant too few and the one at place 77 an invalid signature.
/// A body that does not go on once it found an invalid certificate is refused. Returns whether an allocation failed.
fn is_a_hundred_refused<S: CertificateVerifier<D>, D: Digest>(
    rt: &(impl Abort + AllocGlobal),
    scheme: &S,
    payload: D,
    [few, good, bad]: [&str; 3],
) -> bool {
    let (mut encodings, mut wanted) = (Vec::new(rt.alloc()), Vec::new(rt.alloc()));
    for place in 0..100 {
        let (encoding, verifies) = match place {
            12 => (few, false),
            77 => (bad, false),
            _ => (good, true),
        };
        if encodings.push(encoding).is_err() || wanted.push(verifies).is_err() {
            return true;
        }
    }
    is_refused(rt, scheme, payload, &encodings, &wanted)
}

/// Five lists: five certificates, the first with a participant too few and the fourth with an invalid signature; the second
/// alone; the fourth alone; none; and a hundred. Returns whether an allocation failed.
fn any_list_is_refused<S: CertificateVerifier<D>, D: Digest>(
    rt: &(impl Abort + AllocGlobal),
    scheme: &S,
    payload: D,
    [few, good, bad]: [&str; 3],
) -> bool {
    let wanted = [false, true, true, false, true];
    let five = is_refused(rt, scheme, payload, &[few, good, good, bad, good], &wanted);
    let second = is_refused(rt, scheme, payload, &[good], &[true]);
    let fourth = is_refused(rt, scheme, payload, &[bad], &[false]);
    let none = is_refused(rt, scheme, payload, &[], &[]);
    five || second || fourth || none || is_a_hundred_refused(rt, scheme, payload, [few, good, bad])
}

/// The key whose last byte is this number, behind zeros.
pub(crate) fn key(number: u8) -> PlainKey {
    let mut key = [0; 32];
    key[31] = number;
    PlainKey::from_bytes(&key)
}

/// The keys of four participants, which are their numbers.
pub(crate) fn four_keys(alloc: Global) -> Option<Set<PlainKey>>
    ensures { IfSome result (λ keys. length keys ≡ 4) }
{
    let keys = Vec::from_array(alloc, [key(0), key(1), key(2), key(3)]).ok()?;
    let keys = Set::try_from_vec(keys).ok()?;
    if keys.len() != 4 {
        return None;
    }
    Some(keys)
}

/// The plain scheme under the base `test` of four participants, whose keys are their numbers.
pub(crate) fn plain(alloc: Global) -> Option<Plain> {
    Plain::verifier(alloc, b"test", four_keys(alloc)?).ok()
}

/// The certificates of the marked scheme.
const MARKED: [&str; 3] = ["0200aa01aa", "0300aa01aa02aa", "0300aa01aa0200"];

/// The certificates of the plain scheme.
const PLAIN: [&str; 3] = [
    "02008c6774d2f68c567d3d7099353ba7b9a73b4a3919f00bf8571c6cf14b8b0e1fbc01045f6c82c9c6a62e370b1625789d3877a1e768f34ec0eaf45ca823338253d469",
    "03008c6774d2f68c567d3d7099353ba7b9a73b4a3919f00bf8571c6cf14b8b0e1fbc01045f6c82c9c6a62e370b1625789d3877a1e768f34ec0eaf45ca823338253d4690256b0150cd77310b6cc13b4743086ea7b3f8068421bc0c1da306cbc8083376afa",
    "03008c6774d2f68c567d3d7099353ba7b9a73b4a3919f00bf8571c6cf14b8b0e1fbc01045f6c82c9c6a62e370b1625789d3877a1e768f34ec0eaf45ca823338253d4690256b0150cd77310b6cc13b4743086ea7b3f8068421bc0c1da306cbc8083376a00",
];

/// The lists of the marked scheme.
fn marked_is_refused(rt: &(impl Abort + AllocGlobal)) -> bool {
    let Ok(scheme) = Marked::new(rt.alloc(), 4, None) else {
        return true;
    };
    any_list_is_refused(rt, &scheme, MarkedDigest::from_bytes(&[6]), MARKED)
}

/// The lists of the plain scheme.
fn plain_is_refused(rt: &(impl Abort + AllocGlobal)) -> bool {
    let Some(scheme) = plain(rt.alloc()) else {
        return true;
    };
    any_list_is_refused(rt, &scheme, Sha256Digest::from_bytes(&[6; 32]), PLAIN)
}

/// The lists of the scheme by verdicts.
fn judged_is_refused(rt: &(impl Abort + AllocGlobal)) -> bool {
    let Some(scheme) = judged(rt.alloc()) else {
        return true;
    };
    any_list_is_refused(rt, &scheme, MarkedDigest::from_bytes(&[6]), CERTIFICATES)
}

#[test]
fn ample(rt: HostRuntime) {
    assert!(rt; !marked_is_refused(&rt) && !plain_is_refused(&rt) && !judged_is_refused(&rt));
}

/// Where the allocation for the answers fails there are none.
#[test]
fn refused(rt: HostRuntime) {
    let _ = marked_is_refused(&rt);
    let _ = plain_is_refused(&rt);
    let _ = judged_is_refused(&rt);
}
