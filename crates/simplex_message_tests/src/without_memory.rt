//! Calls that allocate nothing, made while every allocation fails, where no test vector makes them so.
//!
//! Each test first makes what needs memory, and then asks for [`SIGNAL`] bytes. Under an allocator that fails this request and
//! every later one the calls behind it have no memory; under any other allocator they have.

ghost use Rattle.std.specs.Prelude.{◌≡◌, IfOk, length};

use crate::bisection::{four_keys, key, plain};
use simplex_base::codec::{EncodeSize, Fixed, MaxEncodeSize, Read, ReadExt, decode, decode_cfg};
use simplex_base::positions::{Epoch, Epochable, Participant, Round, Roundable, View, Viewable};
use simplex_evidence::types::{ConflictingFinalize, ConflictingNotarize, NullifyFinalize};
use simplex_scheme::assembly::can_assemble;
use simplex_scheme::scheme::{
    AssemblyError, Attestation, CertificateScheme, CertificateSubject, CertificateVerifier, Digest,
    Listing, Namespace, Proposal, Scheme, Set, SetError, Sha256Digest, Subject,
};
use simplex_schemes::marked::{Marked, MarkedDigest, MarkedKey, MarkedSignature};
use simplex_schemes::own::{MarkedCertificate, PlainCertificate};
use simplex_schemes::plain::{Plain, PlainKey};
use simplex_votes::types::{Artifact, Attributable, Certificate, Context, Finalize, Vote};
use std::alloc::{AllocError, Global};
use std::process::Abort;
use std::test::Fail;

/// The number of bytes of the request from which on an allocator may fail every request.
const SIGNAL: usize = 12_345;

/// Asks for [`SIGNAL`] bytes and for one more, and returns whether both failed: then no memory is left.
pub(crate) fn is_out(alloc: Global) -> bool {
    let signal = Vec::<u8>::with_capacity(alloc, SIGNAL);
    let behind = Vec::<u8>::with_capacity(alloc, 1);
    signal.is_err() && behind.is_err()
}

/// The values with these encodings.
fn decoded<T: Read + Drop>(alloc: Global, cfg: &T::Cfg, encodings: &[&[u8]]) -> Option<Vec<T>> {
    let mut values = Vec::new(alloc);
    for encoding in encodings {
        let value = decode_cfg(alloc, encoding, cfg).ok()?;
        values.push(value).ok()?;
    }
    Some(values)
}

/// A vote of each kind, of participant 1.
const VOTES: [&[u8]; 3] = [
    &[0, 0, 10, 5, 6, 1, 0xaa],
    &[1, 0, 10, 1, 0xaa],
    &[2, 0, 10, 5, 6, 1, 0xaa],
];

/// The artifacts that these votes become.
const STORED_VOTES: [&[u8]; 3] = [
    &[0, 0, 10, 5, 6, 1, 0xaa],
    &[3, 0, 10, 1, 0xaa],
    &[5, 0, 10, 5, 6, 1, 0xaa],
];

/// A certificate message of each kind, of participants 0, 1 and 2.
const CERTIFICATES: [&[u8]; 3] = [
    &[0, 0, 10, 5, 6, 3, 0, 0xaa, 1, 0xaa, 2, 0xaa],
    &[1, 0, 10, 3, 0, 0xaa, 1, 0xaa, 2, 0xaa],
    &[2, 0, 10, 5, 6, 3, 0, 0xaa, 1, 0xaa, 2, 0xaa],
];

/// The words for the kinds of these messages.
const KINDS: [&str; 3] = ["notarization", "nullification", "finalization"];

/// The artifacts that these messages become.
const STORED_CERTIFICATES: [&[u8]; 3] = [
    &[1, 0, 10, 5, 6, 3, 0, 0xaa, 1, 0xaa, 2, 0xaa],
    &[4, 0, 10, 3, 0, 0xaa, 1, 0xaa, 2, 0xaa],
    &[6, 0, 10, 5, 6, 3, 0, 0xaa, 1, 0xaa, 2, 0xaa],
];

/// The artifact that states that the proposal of the round of these messages was certified.
const CERTIFICATION: &[u8] = &[2, 0, 10, 1];

/// Whether a value is of round (0, 10), and of its epoch and view.
fn is_of_round<T: Roundable>(value: &T) -> bool {
    value.round() == Round::new(Epoch::new(0), View::new(10))
        && value.epoch() == Epoch::new(0)
        && value.view() == View::new(10)
}

/// Whether messages become these artifacts, of the same round and encoded lengths.
fn are_stored<
    M: EncodeSize + Roundable + Drop,
    A: From<M> + EncodeSize + Roundable + PartialEq + Drop,
>(messages: Vec<M>, artifacts: &[A]) -> bool {
    let is_whole = messages.len() == artifacts.len();
    for (message, artifact) in messages.into_iter().zip(artifacts) {
        if !is_of_round(&message) || !is_of_round(artifact) {
            return false;
        }
        if message.encode_size() != artifact.encode_size() || A::from(message) != *artifact {
            return false;
        }
    }
    is_whole
}

/// Whether votes and certificate messages become artifacts, and each artifact is of their round.
fn are_all_stored<S: CertificateScheme, D: Digest>(alloc: Global) -> Option<bool>
where
    S::Certificate: Eq,
{
    let certificates = decoded::<Certificate<S, D>>(alloc, &4, &CERTIFICATES)?;
    let stored = decoded::<Artifact<S, D>>(alloc, &4, &STORED_CERTIFICATES)?;
    let votes = decoded::<Vote<S, D>>(alloc, &(), &VOTES)?;
    let stored_votes = decoded::<Artifact<S, D>>(alloc, &4, &STORED_VOTES)?;
    let certification = decode_cfg::<Artifact<S, D>>(alloc, CERTIFICATION, &4).ok()?;
    let _ = is_out(alloc);
    Some(
        are_stored(certificates, stored.as_slice())
            && are_stored(votes, stored_votes.as_slice())
            && is_of_round(&certification),
    )
}

#[test]
fn without_memory_stored(rt: HostRuntime) {
    assert!(rt; are_all_stored::<Marked, MarkedDigest>(rt.alloc()) == Some(true));
}

/// Whether a vote is of participant 1 in round (0, 10), and no longer than the greatest.
fn is_by_participant<V: Attributable + Epochable + Viewable + MaxEncodeSize>(vote: &V) -> bool {
    vote.signer() == Participant::new(1)
        && vote.epoch() == Epoch::new(0)
        && vote.view() == View::new(10)
        && vote.bounded_encode_size() <= V::max_encode_size()
}

/// Whether votes of each kind are of the participant.
fn are_by_participant(alloc: Global) -> Option<bool> {
    let votes = decoded::<Vote<Marked, MarkedDigest>>(alloc, &(), &VOTES)?;
    let _ = is_out(alloc);
    for vote in &votes {
        if !is_by_participant(vote) {
            return Some(false);
        }
    }
    Some(true)
}

#[test]
fn without_memory_votes(rt: HostRuntime) {
    assert!(rt; are_by_participant(rt.alloc()) == Some(true));
}

/// Whether certificate messages of each kind verify, and are of the kinds with these words.
fn are_certified<S: Scheme<D>, D: Digest>(alloc: Global, scheme: &S) -> Option<bool> {
    let messages = decoded::<Certificate<S, D>>(alloc, &4, &CERTIFICATES)?;
    let _ = is_out(alloc);
    for (message, word) in messages.iter().zip(&KINDS) {
        if !message.verify(scheme) || message.kind().as_str() != *word {
            return Some(false);
        }
    }
    Some(true)
}

#[test]
fn without_memory_certificates(rt: HostRuntime) -> Result<(), Fail> {
    let scheme = Marked::new(rt.alloc(), 4, None)?;
    assert!(rt; are_certified::<Marked, MarkedDigest>(rt.alloc(), &scheme) == Some(true));
    Ok(())
}

/// Votes of participant 1 for two proposals, and a nullify.
const CONTRADICTING: [&[u8]; 3] = [
    &[0, 10, 5, 6, 1, 0xaa],
    &[0, 10, 5, 7, 1, 0xaa],
    &[0, 10, 1, 0xaa],
];

/// The values with these two encodings, which are decoded without an allocation.
fn pair<A: ReadExt + Drop, B: ReadExt + Drop>(
    alloc: Global,
    first: &[u8],
    second: &[u8],
) -> Option<(A, B)> {
    let first = decode(alloc, first).ok()?;
    Some((first, decode(alloc, second).ok()?))
}

/// Whether two notarizes contradict, and are the evidence that is made of them, while a notarize does not contradict itself.
fn are_notarizes_evidence<S: Scheme<D>, D: Digest>(alloc: Global, scheme: &S) -> bool {
    let Some((first, second)) = pair(alloc, CONTRADICTING[0], CONTRADICTING[1]) else {
        return false;
    };
    if !ConflictingNotarize::<S, D>::conflicts(&first, &second)
        || ConflictingNotarize::<S, D>::conflicts(&first, &first)
    {
        return false;
    }
    let evidence = ConflictingNotarize::new(first.copy(), second.copy());
    evidence.verify(scheme) && *evidence.notarize_1() == first && *evidence.notarize_2() == second
}

/// As [`are_notarizes_evidence`], of two finalizes.
fn are_finalizes_evidence<S: Scheme<D>, D: Digest>(alloc: Global, scheme: &S) -> bool {
    let Some((first, second)) = pair(alloc, CONTRADICTING[0], CONTRADICTING[1]) else {
        return false;
    };
    if !ConflictingFinalize::<S, D>::conflicts(&first, &second)
        || ConflictingFinalize::<S, D>::conflicts(&first, &first)
    {
        return false;
    }
    let evidence = ConflictingFinalize::new(first.copy(), second.copy());
    evidence.verify(scheme) && *evidence.finalize_1() == first && *evidence.finalize_2() == second
}

/// A finalize of participant 1 in the round after that of the votes that contradict.
const LATER: &[u8] = &[0, 11, 5, 6, 1, 0xaa];

/// Whether a nullify and a finalize contradict, and are the evidence that is made of them. A finalize of another round does not
/// contradict the nullify.
fn are_both_evidence<S: Scheme<D>, D: Digest>(alloc: Global, scheme: &S) -> bool {
    let Some((first, second)) = pair(alloc, CONTRADICTING[2], CONTRADICTING[0]) else {
        return false;
    };
    let Ok(later) = decode::<Finalize<S, D>>(alloc, LATER) else {
        return false;
    };
    if !NullifyFinalize::<S, D>::conflicts(&first, &second)
        || NullifyFinalize::<S, D>::conflicts(&first, &later)
    {
        return false;
    }
    let evidence = NullifyFinalize::new(first.copy(), second.copy());
    evidence.verify(scheme) && *evidence.nullify() == first && *evidence.finalize() == second
}

/// Whether votes of participant 1 that contradict are evidence, of each kind.
fn are_evidence<S: Scheme<D>, D: Digest>(alloc: Global, scheme: &S) -> bool {
    let _ = is_out(alloc);
    are_notarizes_evidence(alloc, scheme)
        && are_finalizes_evidence(alloc, scheme)
        && are_both_evidence(alloc, scheme)
}

/// Votes that contradict are evidence. A body that finds a vote in conflict with itself, or votes of two rounds, is refused.
#[test]
fn without_memory_evidence(rt: HostRuntime) -> Result<(), Fail> {
    let scheme = Marked::new(rt.alloc(), 4, None)?;
    assert!(rt; are_evidence::<Marked, MarkedDigest>(rt.alloc(), &scheme));
    Ok(())
}

/// What is signed of round (0, 10) and of its proposal, and bytes that differ from both in a part, at the end or behind it.
const SIGNED: [&[u8]; 9] = [
    &[0, 10],
    &[0, 10, 5, 6],
    &[],
    &[0],
    &[0, 11],
    &[1, 10, 5, 6],
    &[0, 10, 5, 7],
    &[0, 10, 5],
    &[0, 10, 5, 6, 0],
];

/// Whether a message, and nothing else, is what is signed of a subject.
fn is_only_message<D: Digest>(subject: &Subject<'_, D>, message: &[u8]) -> bool {
    for bytes in &SIGNED {
        if subject.is_message(bytes) != (*bytes == message) {
            return false;
        }
    }
    true
}

/// Whether a subject of each kind is signed under the base `test` with the suffix of its kind, has its message, and is of round
/// (0, 10).
fn are_named<D: Digest>(names: &Namespace, proposal: &Proposal<D>) -> bool {
    let round = proposal.round;
    let subjects: [(Subject<'_, D>, &[u8], &[u8]); 3] = [
        (Subject::Notarize { proposal }, b"test_NOTARIZE", SIGNED[1]),
        (Subject::Nullify { round }, b"test_NULLIFY", SIGNED[0]),
        (Subject::Finalize { proposal }, b"test_FINALIZE", SIGNED[1]),
    ];
    for (subject, name, message) in &subjects {
        if subject.namespace(names) != *name
            || !is_only_message(subject, message)
            || !is_of_round(subject)
        {
            return false;
        }
    }
    true
}

/// The namespaces of subjects, what is signed of them, and their rounds, which is also that of the context of a proposal. One
/// that is signed under the namespace of another kind, and bytes that are taken for another message, are refused.
#[test]
fn without_memory_subjects(rt: HostRuntime) -> Result<(), Fail> {
    let names = Namespace::new(rt.alloc(), b"test")?;
    let _ = is_out(rt.alloc());
    let proposal = proposal(MarkedDigest::from_bytes(&[6]));
    assert!(rt; are_named(&names, &proposal));
    let context = Context {
        round: proposal.round,
        leader: MarkedKey::from_bytes(&[0, 0, 0, 1]),
        parent: (proposal.parent, proposal.payload),
    };
    assert!(rt; is_of_round(&context));
    Ok(())
}

/// Whether a scheme has four participants and is this one of them, if it is one, and its certificates state who signed them.
pub(crate) fn is_of_four<S: CertificateScheme>(scheme: &S, me: Option<Participant>) -> bool {
    scheme.me() == me && scheme.certificate_codec_config() == 4 && S::is_attributable()
}

/// Whether a certificate lists an attestation of participant 1, and then one of participant 3, and no other.
fn lists_two<S: Listing<D>, D: Digest>(certificate: &S::Certificate) -> bool {
    let listed = S::attestations(certificate);
    let is_first = matches!(listed.first(), Some(first) if first.signer == Participant::new(1));
    let is_last = matches!(listed.last(), Some(last) if last.signer == Participant::new(3));
    is_first && is_last && listed.len() == 2
}

/// Whether a scheme of four is its third participant, another is nobody, and a certificate of participants 1 and 3 lists them.
fn are_of_four<S: Listing<D>, D: Digest>(
    alloc: Global,
    third: &S,
    nobody: &S,
    encoding: &[u8],
) -> bool {
    let Ok(certificate) = decode_cfg::<S::Certificate>(alloc, encoding, &4) else {
        return false;
    };
    let _ = is_out(alloc);
    is_of_four(third, Some(Participant::new(2)))
        && is_of_four(nobody, None)
        && lists_two::<S, D>(&certificate)
}

/// What a scheme states of itself, and what a certificate lists. A scheme that is another participant or none, another bound on
/// certificates, and a list that lacks an attestation are refused.
#[test]
fn without_memory_schemes(rt: HostRuntime) -> Result<(), Fail> {
    let third = Marked::new(rt.alloc(), 4, Some(Participant::new(2)))?;
    let nobody = Marked::new(rt.alloc(), 4, None)?;
    let encoding = &[2, 1, 0xaa, 3, 0xaa];
    assert!(rt; are_of_four::<Marked, MarkedDigest>(rt.alloc(), &third, &nobody, encoding));
    Ok(())
}

/// The third of the plain scheme's participants.
fn third_of_four(alloc: Global) -> Result<Plain, Fail> {
    let keys = four_keys(alloc).ok_or("no keys")?;
    Ok(Plain::signer(alloc, b"test", keys, &key(2))?.ok_or("nobody")?)
}

/// A certificate of the plain scheme by participants 1 and 3, whose signatures are zeros.
const BY_TWO: &[u8; 67] = b"\x02\
    \x01\0\0\0\0\0\0\0\0\0\0\0\0\0\0\0\0\0\0\0\0\0\0\0\0\0\0\0\0\0\0\0\0\
    \x03\0\0\0\0\0\0\0\0\0\0\0\0\0\0\0\0\0\0\0\0\0\0\0\0\0\0\0\0\0\0\0\0";

/// As [`without_memory_schemes`], of the plain scheme.
#[test]
fn without_memory_plain_schemes(rt: HostRuntime) -> Result<(), Fail> {
    let third = third_of_four(rt.alloc())?;
    let nobody = plain(rt.alloc()).ok_or("no committee")?;
    assert!(rt; are_of_four::<Plain, Sha256Digest>(rt.alloc(), &third, &nobody, BY_TWO));
    Ok(())
}

/// Whether attestations of distinct participants can be assembled, and those of one participant cannot.
fn are_distinct_assembled(alloc: Global, scheme: &Marked) -> Option<bool> {
    let distinct = decoded::<Attestation<Marked>>(alloc, &(), &[&[1, 0xaa], &[2, 0xaa]])?;
    let falling = decoded::<Attestation<Marked>>(alloc, &(), &[&[2, 0xaa], &[1, 0xaa]])?;
    let repeated = decoded::<Attestation<Marked>>(alloc, &(), &[&[1, 0xaa], &[1, 0xaa]])?;
    let _ = is_out(alloc);
    Some(
        can_assemble(alloc, scheme, distinct.as_slice())
            && can_assemble(alloc, scheme, falling.as_slice())
            && !can_assemble(alloc, scheme, repeated.as_slice()),
    )
}

#[test]
fn without_memory_assembly(rt: HostRuntime) -> Result<(), Fail> {
    let scheme = Marked::new(rt.alloc(), 4, None)?;
    assert!(rt; are_distinct_assembled(rt.alloc(), &scheme) == Some(true));
    Ok(())
}

/// The mark of this participant.
fn mark_of(number: u32) -> Attestation<Marked> {
    Attestation {
        signer: Participant::new(number),
        signature: MarkedSignature::from_bytes(&[0xaa]),
    }
}

/// The marks of a hundred thousand participants, each of whom is this many after the one before it, round the committee.
fn marks(alloc: Global, step: u32) -> Result<Vec<Attestation<Marked>>, AllocError> {
    let mut marks = Vec::new(alloc);
    for number in 0_u32..100_000 {
        marks.push(mark_of(number.saturating_mul(step) % 100_000))?;
    }
    Ok(marks)
}

/// These marks of a hundred thousand signers can be assembled, and not with one more of this signer.
fn check_many(rt: &impl Abort, alloc: Global, step: u32, again: u32) -> Result<(), Fail> {
    let scheme = Marked::new(alloc, 100_000, None)?;
    let mut marks = marks(alloc, step)?;
    assert!(rt; can_assemble(alloc, &scheme, marks.as_slice()));
    marks.push(mark_of(again))?;
    assert!(rt; !can_assemble(alloc, &scheme, marks.as_slice()));
    Ok(())
}

/// A hundred thousand attestations in the order of their signers, and then one more of the first.
#[test]
fn ample_many_signers(rt: HostRuntime) -> Result<(), Fail> {
    check_many(&rt, rt.alloc(), 1, 0)
}

/// The same in an order in which each signer is seven after the one before it, round the committee seven times.
#[test]
fn ample_many_signers_out_of_order(rt: HostRuntime) -> Result<(), Fail> {
    check_many(&rt, rt.alloc(), 7, 99_999)
}

/// The attestation of `me` to a proposal, if it is valid and `nobody` signs none.
fn signed<S: Scheme<D>, D: Digest>(
    alloc: Global,
    me: &S,
    nobody: &S,
    proposal: &Proposal<D>,
) -> Option<Attestation<S>> {
    if !matches!(nobody.sign(alloc, Subject::Notarize { proposal }), Ok(None)) {
        return None;
    }
    let attestation = me.sign(alloc, Subject::Notarize { proposal }).ok()??;
    if nobody.verify_attestation(Subject::Notarize { proposal }, &attestation) {
        Some(attestation)
    } else {
        None
    }
}

/// Whether an empty list of attestations is refused as too few for a committee of one.
fn is_refused_without_any<S: Scheme<D>, D: Digest>(alloc: Global, me: &S) -> bool {
    let none = Vec::new(alloc);
    if !can_assemble(alloc, me, none.as_slice()) {
        return false;
    }
    let few = AssemblyError::InsufficientAttestations(1, 0);
    matches!(me.assemble(alloc, none), Err(error) if error == few)
}

/// Whether the attestation of the participant of a committee of one makes a certificate of a proposal. `room` has room for one.
fn is_assembled<S: Scheme<D>, D: Digest>(
    alloc: Global,
    me: &S,
    nobody: &S,
    mut room: Vec<Attestation<S>>,
    proposal: &Proposal<D>,
) -> bool {
    room.clear();
    let Some(attestation) = signed(alloc, me, nobody, proposal) else {
        return false;
    };
    if room.push(attestation).is_err() || !can_assemble(alloc, me, room.as_slice()) {
        return false;
    }
    let Ok(certificate) = me.assemble(alloc, room) else {
        return false;
    };
    certificate.encode_size() <= S::max_certificate_size(1)
        && nobody.verify_certificate(Subject::Notarize { proposal }, &certificate)
}

/// Whether the participant of a committee of one signs, and makes a certificate of its attestation, and none without it.
fn is_quorum_alone<S: Scheme<D>, D: Digest>(alloc: Global, me: &S, nobody: &S, payload: D) -> bool {
    let Ok(room) = Vec::with_capacity(alloc, 1) else {
        return false;
    };
    let _ = is_out(alloc);
    is_refused_without_any::<S, D>(alloc, me)
        && is_assembled(alloc, me, nobody, room, &proposal(payload))
}

/// The proposal for this payload in round (0, 10), built on view 5.
pub(crate) fn proposal<D: Digest>(payload: D) -> Proposal<D> {
    let round = Round::new(Epoch::new(0), View::new(10));
    Proposal::new(round, View::new(5), payload)
}

#[test]
fn without_memory_marked(rt: HostRuntime) -> Result<(), Fail> {
    let alloc = rt.alloc();
    let me = Marked::new(alloc, 1, Some(Participant::new(0)))?;
    let nobody = Marked::new(alloc, 1, None)?;
    let payload = MarkedDigest::from_bytes(&[6]);
    assert!(rt; is_quorum_alone(alloc, &me, &nobody, payload));
    Ok(())
}

/// Whether a certificate certifies a proposal, twice in one list.
fn is_certified_twice(
    scheme: &Marked,
    proposal: &Proposal<MarkedDigest>,
    certificate: &MarkedCertificate,
) -> bool {
    let items = [
        (Subject::Notarize { proposal }, certificate),
        (Subject::Notarize { proposal }, certificate),
    ];
    scheme.verify_all(&items)
}

#[test]
fn without_memory_twice(rt: HostRuntime) -> Result<(), Fail> {
    let alloc = rt.alloc();
    let nobody = Marked::new(alloc, 1, None)?;
    let certificate = decode_cfg::<MarkedCertificate>(alloc, &[1, 0, 0xaa], &1)?;
    let _ = is_out(alloc);
    let proposal = proposal(MarkedDigest::from_bytes(&[6]));
    assert!(rt; is_certified_twice(&nobody, &proposal, &certificate));
    Ok(())
}

/// The set of the key of zeros.
fn key_of_zeros(alloc: Global) -> Result<Set<PlainKey>, Fail>
    ensures { IfOk result (λ keys. length keys ≡ 1) }
{
    let mut keys = Vec::new(alloc);
    keys.push(PlainKey::from_bytes(&[0; 32]))?;
    let keys = Set::try_from_vec(keys)?;
    if keys.len() != 1 {
        return Err("no key".into());
    }
    Ok(keys)
}

/// The one participant of its committee.
fn signer_of_zeros(alloc: Global) -> Result<Plain, Fail> {
    let own = PlainKey::from_bytes(&[0; 32]);
    Ok(Plain::signer(alloc, b"test", key_of_zeros(alloc)?, &own)?.ok_or("nobody")?)
}

/// Its committee, of which it is no participant.
fn nobody_of_zeros(alloc: Global) -> Result<Plain, Fail> {
    Ok(Plain::verifier(alloc, b"test", key_of_zeros(alloc)?)?)
}

/// As [`is_certified_twice`], by the plain scheme.
fn is_plain_certified_twice(
    scheme: &Plain,
    proposal: &Proposal<Sha256Digest>,
    certificate: &PlainCertificate,
) -> bool {
    let items = [
        (Subject::Notarize { proposal }, certificate),
        (Subject::Notarize { proposal }, certificate),
    ];
    scheme.verify_all(&items)
}

/// The certificate by the key of zeros alone of the proposal whose payload is sixes, under the base `test`, in hexadecimal.
const PLAIN_CERTIFICATE: &str =
    "01008c6774d2f68c567d3d7099353ba7b9a73b4a3919f00bf8571c6cf14b8b0e1fbc";

/// That certificate.
fn plain_certificate(alloc: Global) -> Option<PlainCertificate> {
    let encoding = hex::decode(alloc, PLAIN_CERTIFICATE).ok()?;
    decode_cfg(alloc, encoding.as_slice(), &1).ok()
}

#[test]
fn without_memory_plain_twice(rt: HostRuntime) -> Result<(), Fail> {
    let nobody = nobody_of_zeros(rt.alloc())?;
    let certificate = plain_certificate(rt.alloc()).ok_or("no certificate")?;
    let _ = is_out(rt.alloc());
    let proposal = proposal(Sha256Digest::from_bytes(&[6; 32]));
    assert!(rt; is_plain_certified_twice(&nobody, &proposal, &certificate));
    Ok(())
}

#[test]
fn without_memory_plain(rt: HostRuntime) -> Result<(), Fail> {
    let alloc = rt.alloc();
    let me = signer_of_zeros(alloc)?;
    let nobody = nobody_of_zeros(alloc)?;
    let payload = Sha256Digest::from_bytes(&[6; 32]);
    assert!(rt; is_quorum_alone(alloc, &me, &nobody, payload));
    Ok(())
}

/// A key that is in no committee signs for nobody.
#[test]
fn without_memory_stranger(rt: HostRuntime) -> Result<(), Fail> {
    let alloc = rt.alloc();
    let members = key_of_zeros(alloc)?;
    let _ = is_out(alloc);
    let stranger = PlainKey::from_bytes(&[1; 32]);
    assert!(rt; matches!(Plain::signer(alloc, b"test", members, &stranger), Ok(None)));
    Ok(())
}

/// Keys become a set in place.
#[test]
fn without_memory_sets(rt: HostRuntime) -> Result<(), Fail> {
    let falling = [3, 1, 2].to_vec(rt.alloc())?;
    let _ = is_out(rt.alloc());
    let set = Set::<u32>::try_from_vec(falling)?;
    assert!(rt; set.len() == 3 && set.position(&3) == Some(2));
    assert!(rt; set.get(0) == Some(&1) && set.get(3).is_none() && !set.is_empty());
    Ok(())
}

/// A repeated key is refused.
#[test]
fn without_memory_repeated_keys(rt: HostRuntime) -> Result<(), Fail> {
    let repeated = [1, 2, 1].to_vec(rt.alloc())?;
    let _ = is_out(rt.alloc());
    let set = Set::<u32>::try_from_vec(repeated);
    assert!(rt; matches!(set, Err(SetError::Repeated)));
    assert!(rt; Set::<u32>::are_ascending(&[1, 2]) && !Set::<u32>::are_ascending(&[1, 1]));
    Ok(())
}
