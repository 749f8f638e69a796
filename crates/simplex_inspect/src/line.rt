//! The line of a message.

ghost use Rattle.std.specs.Prelude.{◌≡◌, IfOk, OnOk, string_bytes, map, option_map, codes};
ghost use Rattle.std.specs.Option.{option_copied};
ghost use Rattle.json.specs.Tree.{json_tokens};
ghost use Rattle.simplex_scheme.specs.Committee.{quorum_of};
ghost use Rattle.simplex_scheme.specs.Subject.{subject_value};
ghost use Rattle.simplex_scheme.specs.Committees.{valid_by, certified_by, size_by};
ghost use Rattle.simplex_votes.specs.Votes.{vote_on};
ghost use Rattle.simplex_evidence.specs.Activity.{contents_of};
ghost use Rattle.simplex_evidence.specs.Contents.{signed_value};
ghost use Rattle.simplex_inspect.specs.Line.{proposed_members, subject_members, attestation_json, vote_json, certificate_json, statements_json, message_word, message_json};
ghost use Rattle.simplex_inspect.specs.Shown.{signature_validity, certificate_validity};
ghost use Rattle.simplex_inspect.specs.Tokens.{Appended, member_tokens, open_tokens, value_tokens};
ghost use Rattle.simplex_inspect.specs.Values.{IsJsonLine};

use crate::basis::Inspected;
use crate::parts::{
    close_listing, end_line, open_list, open_message, write_proposal, write_signature, write_text,
};
use crate::validity::{Validity, validity_of_certificate, validity_of_signature};
use json::Writer;
use simplex_base::codec::Fixed;
use simplex_base::positions::Roundable;
use simplex_evidence::types::{Activity, Contents, Signed};
use simplex_scheme::committees::Committees;
use simplex_scheme::scheme::{
    Attestation, CertificateScheme, Digest, Listing, Scheme, Subject, quorum,
};
use std::alloc::{AllocError, Global};

/// Bytes to reserve for a message's line, beside [`ROOM_A_BYTE`] for each of the message's bytes. A longer line is written too,
/// with further allocations.
const LEAST_ROOM: usize = 512;

/// Bytes to reserve for each byte of a message: two digits, and three for the text around a signature, which is spread over the
/// signature's bytes.
const ROOM_A_BYTE: usize = 5;

/// How many participants a committee has, 0 where there is none.
fn size_of<S: CertificateScheme>(committee: Option<&S>) -> u32
    ensures { result ≡ size_by S.keys (option_copied committee.entry) }
{
    match committee {
        Some(committee) => committee.participants().len() as u32,
        None => 0,
    }
}

/// The quorum of this many participants, 0 if there are none.
fn quorum_among(size: u32) -> usize
    ensures { result ≡ quorum_of size }
{
    if size == 0 {
        return 0;
    }
    quorum(size) as usize
}

/// Whether a signature is valid under a committee. Without a committee none is.
fn is_valid<S: Scheme<D>, D: Digest>(
    committee: Option<&S>,
    subject: &Subject<'_, D>,
    attestation: &Attestation<S>,
) -> bool
    ensures { result ≡ valid_by S.good (option_copied committee.entry) (subject_value subject.now)
        attestation.now.signer attestation.now.signature }
{
    match committee {
        Some(committee) => committee.verify_attestation(subject.reborrow(), attestation),
        None => false,
    }
}

/// Whether a certificate certifies a subject under a committee. Without a committee none does.
fn is_certified<S: Listing<D>, D: Digest>(
    committee: Option<&S>,
    subject: &Subject<'_, D>,
    certificate: &S::Certificate,
) -> bool
    ensures { result ≡
        certified_by S.certified (option_copied committee.entry)
        (subject_value subject.now) certificate.now }
{
    match committee {
        Some(committee) => committee.verify_certificate(subject.reborrow(), certificate),
        None => false,
    }
}

/// The validity of a signature, where there are committees.
fn signature_validity<S: Listing<D>, D: Digest>(
    committees: &Option<Committees<S>>,
    subject: &Subject<'_, D>,
    attestation: &Attestation<S>,
) -> Option<Validity>
    ensures { result ≡ option_map (λ rules.
        signature_validity rules (vote_on (subject_value subject.now) attestation.now))
        (⟦<S as Inspected<D>>⟧.shown committees.now).rules }
{
    let Some(committees) = committees else {
        return None;
    };
    let committee = committees.get(subject.round().epoch());
    let valid = is_valid(committee, subject, attestation);
    let size = size_of(committee) as usize;
    Some(validity_of_signature(valid, size, attestation.signer.get()))
}

/// The validity of a certificate, where there are committees.
fn certificate_validity<S: Listing<D>, D: Digest>(
    committees: &Option<Committees<S>>,
    subject: &Subject<'_, D>,
    certificate: &S::Certificate,
) -> Option<Validity>
    ensures { result ≡ option_map (λ rules.
        certificate_validity rules (subject_value subject.now) certificate.now)
        (⟦<S as Inspected<D>>⟧.shown committees.now).rules }
{
    let Some(committees) = committees else {
        return None;
    };
    let committee = committees.get(subject.round().epoch());
    let valid = is_certified(committee, subject, certificate);
    let size = size_of(committee);
    let count = S::attestations(certificate).len();
    Some(validity_of_certificate(valid, size as usize, quorum_among(size), count))
}

/// Writes the members of a subject's proposal, if it has one.
fn write_proposed<D: Digest>(
    alloc: Global,
    writer: &mut Writer,
    subject: &Subject<'_, D>,
) -> Result<(), AllocError>
    ensures { OnOk result (Appended
        (member_tokens (proposed_members D.bytes_of (subject_value subject.now)))
        writer.old writer.new) }
{
    match subject {
        Subject::Notarize { proposal } | Subject::Finalize { proposal } => {
            let (parent, payload) = (proposal.parent.get(), proposal.payload.as_bytes());
            write_proposal(alloc, writer, parent, payload)
        }
        Subject::Nullify { .. } => Ok(()),
    }
}

/// Writes the members of a subject: the kind of its votes, and its proposal.
fn write_subject<D: Digest>(
    alloc: Global,
    writer: &mut Writer,
    subject: &Subject<'_, D>,
) -> Result<(), AllocError>
    ensures { OnOk result (Appended
        (member_tokens (subject_members D.bytes_of (subject_value subject.now)))
        writer.old writer.new) }
{
    write_text(writer, "vote", subject.kind().word())?;
    write_proposed(alloc, writer, subject)
}

/// Writes an attestation of a subject, with the validity of its signature.
fn write_attestation<S: Listing<D>, D: Digest>(
    alloc: Global,
    writer: &mut Writer,
    committees: &Option<Committees<S>>,
    subject: &Subject<'_, D>,
    attestation: &Attestation<S>,
) -> Result<(), AllocError>
    ensures { OnOk result (Appended
        (json_tokens (attestation_json (⟦<S as Inspected<D>>⟧.shown committees.now)
        (subject_value subject.now) attestation.now)) writer.old writer.new) }
{
    let validity = signature_validity(committees, subject, attestation);
    let signer = attestation.signer.get();
    write_signature(
        alloc,
        writer,
        signer,
        attestation.signature.as_bytes(),
        validity,
    )
}

/// Writes attestations of a subject.
fn write_attestations<S: Listing<D>, D: Digest>(
    alloc: Global,
    writer: &mut Writer,
    committees: &Option<Committees<S>>,
    subject: &Subject<'_, D>,
    attestations: &[Attestation<S>],
) -> Result<(), AllocError>
    ensures { OnOk result (Appended
        (value_tokens (map (attestation_json (⟦<S as Inspected<D>>⟧.shown committees.now)
        (subject_value subject.now)) attestations.now)) writer.old writer.new) }
{
    for attestation in attestations {
        write_attestation(alloc, writer, committees, subject, attestation)?;
    }
    Ok(())
}

/// Begins a statement: its members up to its signatures.
fn open_statement<D: Digest>(
    alloc: Global,
    writer: &mut Writer,
    subject: &Subject<'_, D>,
) -> Result<(), AllocError>
    ensures { OnOk result (Appended
        (open_tokens (subject_members D.bytes_of (subject_value subject.now))
        (codes "signatures")) writer.old writer.new) }
{
    writer.begin_object()?;
    write_subject(alloc, writer, subject)?;
    open_list(writer, "signatures")
}

/// Writes a vote: its subject, and its signature.
fn write_vote<S: Listing<D>, D: Digest>(
    alloc: Global,
    writer: &mut Writer,
    committees: &Option<Committees<S>>,
    vote: &Signed<'_, S, D>,
) -> Result<(), AllocError>
    ensures { OnOk result (Appended
        (json_tokens (vote_json (⟦<S as Inspected<D>>⟧.shown committees.now)
        (signed_value vote.now))) writer.old writer.new) }
{
    open_statement(alloc, writer, &vote.subject)?;
    write_attestation(alloc, writer, committees, &vote.subject, vote.attestation)?;
    close_listing(writer, None)
}

/// Writes a certificate: its subject, the signatures that it lists, and its validity.
fn write_certificate<S: Listing<D>, D: Digest>(
    alloc: Global,
    writer: &mut Writer,
    committees: &Option<Committees<S>>,
    subject: &Subject<'_, D>,
    certificate: &S::Certificate,
) -> Result<(), AllocError>
    ensures { OnOk result (Appended
        (json_tokens (certificate_json (⟦<S as Inspected<D>>⟧.shown committees.now)
        (subject_value subject.now) certificate.now)) writer.old writer.new) }
{
    open_statement(alloc, writer, subject)?;
    write_attestations(
        alloc,
        writer,
        committees,
        subject,
        S::attestations(certificate),
    )?;
    close_listing(
        writer,
        certificate_validity(committees, subject, certificate),
    )
}

/// Writes what a message states: a vote, a certificate, or both votes of evidence.
fn write_statements<S: Listing<D>, D: Digest>(
    alloc: Global,
    writer: &mut Writer,
    committees: &Option<Committees<S>>,
    message: &Activity<S, D>,
) -> Result<(), AllocError>
    ensures { OnOk result (Appended
        (value_tokens (statements_json (⟦<S as Inspected<D>>⟧.shown committees.now)
        (contents_of message.now))) writer.old writer.new) }
{
    match message.contents() {
        Contents::Vote(vote) => write_vote(alloc, writer, committees, &vote),
        Contents::Certificate(subject, certificate) => {
            write_certificate(alloc, writer, committees, &subject, certificate)
        }
        Contents::Evidence(first, second) => {
            write_vote(alloc, writer, committees, &first)?;
            write_vote(alloc, writer, committees, &second)
        }
    }
}

/// The word of a kind of message.
fn message_word<S: CertificateScheme, D: Digest>(message: &Activity<S, D>) -> &'static str
    ensures { result.now ≡ message_word message.now }
{
    match message {
        Activity::Notarize(_) => "notarize",
        Activity::Notarization(_) => "notarization",
        Activity::Certification(_) => "certification",
        Activity::Nullify(_) => "nullify",
        Activity::Nullification(_) => "nullification",
        Activity::Finalize(_) => "finalize",
        Activity::Finalization(_) => "finalization",
        Activity::ConflictingNotarize(_) => "conflicting-notarize",
        Activity::ConflictingFinalize(_) => "conflicting-finalize",
        Activity::NullifyFinalize(_) => "nullify-finalize",
    }
}

/// Writes a message: its offset, its length, its kind, its round, and its statements.
fn write_message<S: Listing<D>, D: Digest>(
    alloc: Global,
    writer: &mut Writer,
    committees: &Option<Committees<S>>,
    offset: usize,
    length: usize,
    message: &Activity<S, D>,
) -> Result<(), AllocError>
    ensures { OnOk result (Appended
        (json_tokens (message_json (⟦<S as Inspected<D>>⟧.shown committees.now) offset length
        message.now)) writer.old writer.new) }
{
    let round = message.round();
    let place = (round.epoch().get(), round.view().get());
    open_message(writer, offset, length, message_word(message), place)?;
    write_statements(alloc, writer, committees, message)?;
    close_listing(writer, None)
}

/// The line of a message, with its newline: its 0-based offset in the stream, its length in bytes, its kind, its round, and
/// its statements. Without committees it has no validities. `AllocError` where an allocation failed.
pub fn line<S: Listing<D>, D: Digest>(
    alloc: Global,
    committees: &Option<Committees<S>>,
    offset: usize,
    length: usize,
    message: &Activity<S, D>,
) -> Result<String, AllocError>
    ensures line { IfOk result (λ text. string_bytes text ≡
        (⟦<S as Inspected<D>>⟧.lines committees.now).line offset length message.now) }
    // Without its newline it is a JSON document, and this is its value.
    ensures json { IfOk result (λ text. IsJsonLine (string_bytes text)
        (message_json (⟦<S as Inspected<D>>⟧.shown committees.now) offset length message.now)) }
{
    let room = length
        .saturating_mul(ROOM_A_BYTE)
        .saturating_add(LEAST_ROOM);
    let mut writer = Writer::new(Vec::with_capacity(alloc, room)?);
    write_message(alloc, &mut writer, committees, offset, length, message)?;
    end_line(writer)
}
