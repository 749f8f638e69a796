//! The audit of a whole stream.

ghost use Rattle.std.specs.Prelude.{ℕ, List, All, IfOk};
ghost use Rattle.simplex_base.specs.Format.{IsLawful};
ghost use Rattle.simplex_audit.specs.Deferred.{NeedsSuspectsAlone};
ghost use Rattle.simplex_audit.specs.Guarantees.{EvidenceIsDetermined, HasOneReading, AccusesExactlyThem, ShowsTwoVotes, HasNoOtherEvidence, AccusedInAnyOrder, AccusedStayWithMore, ConflictsAccuseEnough, SignersOfBothAreAccused, ShowsSplits, ReadsAgain, IsAudit};
ghost use Rattle.simplex_audit.specs.Report.{IsReport, as_messages};
ghost use Rattle.simplex_rules.specs.Rules.{AreLawful};

pub use crate::auditor::Auditor;
use crate::basis::Audited;
use crate::laws::message_laws;
use crate::reading::{read_messages, reading_bound};
use crate::reporting::make_report;
pub use crate::run::{RunError, Summary, run};
pub use crate::stored::run_deferred;
use simplex_detector::detector::Detector;
use simplex_laws::laws::{suspects_determine_reports, suspects_suffice};
pub use simplex_rules::evidence::Evidence;
use simplex_rules::judging::{Judging, suspects_of};
pub use simplex_rules::split::Split;
pub use simplex_scheme::committees::{Committees, CommitteesError};
use simplex_scheme::scheme::{Digest, Listing, SchemeTypes};
pub use simplex_stream::fault::Fault;
pub use simplex_stream::watched::Watched;
use std::alloc::{AllocError, Global};

/// What an audit found.
#[derive(Drop)]
pub struct Report<S: SchemeTypes, D: Digest> {
    /// One for each round, signer and kind with a contradiction, in the order of rounds, signers and kinds.
    pub evidence: Vec<Evidence<S, D>>,
    /// One for each round with two certified messages that contradict, in the order of rounds.
    pub splits: Vec<Split>,
    /// The number of messages read.
    pub read: usize,
    /// Where the stream stops being messages, if it does.
    pub fault: Option<Fault>,
}

/// Reads a stream of messages, one after another, up to its end or first fault, under the bound of the greatest
/// committee. The report accuses exactly the signers, rounds and kinds with two valid votes that contradict, each once with
/// the earliest such votes, and lists the rounds whose certificates verify and contradict. A vote or a certificate is
/// judged by the committee of its epoch; without a committee none is valid. Nothing is assumed of the bytes.
/// `AllocError` is returned only after an allocation failed, and then there is no report.
pub fn audit<S: Listing<D>, D: Digest>(
    alloc: Global,
    committees: &Committees<S>,
    stream: &[u8],
) -> Result<Report<S, D>, AllocError>
    // The stream's messages were read up to its end or first fault, the evidence is that of their valid votes, and the
    // splits are theirs.
    ensures report { IfOk result (λ report.
        IsReport (⟦<S as Audited<D>>⟧.basis committees.now) stream.now report) }
    // The stream has exactly one list of messages.
    ensures single { HasOneReading (⟦<S as Audited<D>>⟧.basis committees.now) stream.now }
    // The evidence accuses exactly the signers, rounds and kinds with two valid votes that contradict.
    ensures names { IfOk result (λ report.
        AccusesExactlyThem (⟦<S as Audited<D>>⟧.basis committees.now) stream.now report) }
    // Each evidence is two of the stream's valid votes, which contradict.
    ensures sound { IfOk result (λ report.
        ShowsTwoVotes (⟦<S as Audited<D>>⟧.basis committees.now) stream.now report) }
    // No other list is the evidence of the stream's valid votes.
    ensures only { IfOk result (λ report.
        HasNoOtherEvidence (⟦<S as Audited<D>>⟧.basis committees.now) stream.now report) }
    // Who is accused does not depend on the order of the messages.
    ensures any_order { AccusedInAnyOrder (⟦<S as Audited<D>>⟧.basis committees.now) }
    // An accused signer stays accused when any bytes are appended.
    ensures stays { AccusedStayWithMore (⟦<S as Audited<D>>⟧.basis committees.now) stream.now }
    // Two certified messages of a round that contradict accuse at least f + 1 signers there, f being the fault bound of the
    // epoch's committee.
    ensures enough { ConflictsAccuseEnough (⟦<S as Audited<D>>⟧.basis committees.now) stream.now }
    // The splits are exactly the rounds with such messages, each once with the number of signers accused there and f + 1.
    ensures splits { IfOk result (λ report.
        ShowsSplits (⟦<S as Audited<D>>⟧.basis committees.now) stream.now report) }
    // Every signer of both certificates is accused.
    ensures accountable { SignersOfBothAreAccused (⟦<S as Audited<D>>⟧.basis committees.now)
        stream.now }
    // Encoded as messages and audited again, the evidence yields the same evidence in the same order.
    ensures again { IfOk result (λ report.
        ReadsAgain (⟦<S as Audited<D>>⟧.basis committees.now) report) }
    // All of the clauses above, in one record.
    ensures audit { IfOk result (λ report.
        IsAudit (⟦<S as Audited<D>>⟧.basis committees.now) stream.now report) }
    // Evidence of any messages accuses exactly those whom they accuse, and is the only one.
    ensures determined { EvidenceIsDetermined (⟦<S as Audited<D>>⟧.basis committees.now) }
{
    message_laws::<S, D>();
    audit_stream(alloc, committees, Judging::Verified, stream)
}

/// Returns the report that [`audit`] returns, with fewer signatures verified. A signer of a committee is suspect in a round
/// where two votes that claim to be that signer's contradict. A vote outside certificates is verified only where its signer is
/// suspect in its round, and a certificate only where somebody is suspect in its round; a vote that such a certificate lists is
/// verified where its signer is suspect and the certificate was not found to certify. Where nobody is suspect, the stream is
/// read once and nothing is verified; otherwise it is read twice. The first reading records votes with invalid signatures too,
/// so memory is bounded by the stream and not by the committees alone. That suits a stored stream or a batch of bounded size;
/// for an endless stream from untrusted senders use [`Auditor`]. `AllocError` is returned only after an allocation failed, and
/// then there is no report.
pub fn audit_deferred<S: Listing<D>, D: Digest>(
    alloc: Global,
    committees: &Committees<S>,
    stream: &[u8],
) -> Result<Report<S, D>, AllocError>
    // All that `audit` states of a stream and of its report.
    ensures audit { IfOk result (λ report.
        IsAudit (⟦<S as Audited<D>>⟧.basis committees.now) stream.now report) }
    // The report depends on no vote of a signer who is not suspect in its round, and on no certificate outside suspect rounds.
    ensures suspects { IfOk result (λ report.
        NeedsSuspectsAlone (⟦<S as Audited<D>>⟧.basis committees.now) stream.now report) }
    // Each stream has exactly one list of messages.
    ensures single { (other : List ℕ) →
        HasOneReading (⟦<S as Audited<D>>⟧.basis committees.now) other }
    // Who is accused does not depend on the order of the messages.
    ensures any_order { AccusedInAnyOrder (⟦<S as Audited<D>>⟧.basis committees.now) }
    // An accused signer stays accused when any bytes are appended.
    ensures stays { AccusedStayWithMore (⟦<S as Audited<D>>⟧.basis committees.now) stream.now }
    // Two certified messages of a round that contradict accuse at least f + 1 signers there, f being the fault bound of the
    // epoch's committee.
    ensures enough { ConflictsAccuseEnough (⟦<S as Audited<D>>⟧.basis committees.now) stream.now }
    // Every signer of both certificates is accused.
    ensures accountable { SignersOfBothAreAccused (⟦<S as Audited<D>>⟧.basis committees.now)
        stream.now }
    // Evidence of any messages accuses exactly those whom they accuse, and is the only one.
    ensures determined { EvidenceIsDetermined (⟦<S as Audited<D>>⟧.basis committees.now) }
{
    message_laws::<S, D>();
    suspects_suffice::<S, D>();
    audit_suspects(alloc, committees, stream)
}

/// The report of a stream, verifying only the votes of suspects and the certificates of their rounds.
fn audit_suspects<S: Listing<D>, D: Digest>(
    alloc: Global,
    committees: &Committees<S>,
    stream: &[u8],
) -> Result<Report<S, D>, AllocError>
    ensures readable { IsLawful (⟦<S as Audited<D>>⟧.basis committees.now).format }
    ensures lawful { AreLawful (⟦<S as Audited<D>>⟧.basis committees.now).rules }
    ensures report { IfOk result (λ report.
        IsReport (⟦<S as Audited<D>>⟧.basis committees.now) stream.now report) }
    ensures encoded { IfOk result (λ report.
        All (⟦<S as Audited<D>>⟧.basis committees.now).format.is_value (as_messages report)) }
{
    suspects_determine_reports::<S, D>();
    let claims = audit_stream(alloc, committees, Judging::Claimed, stream)?;
    if claims.evidence.is_empty() {
        return Ok(claims);
    }
    let suspects = suspects_of(alloc, &claims.evidence)?;
    let report = audit_stream(alloc, committees, Judging::Suspects(suspects), stream)?;
    Ok(report)
}

/// The report of a stream whose votes and certificates are judged as strictly as a `Judging` says.
fn audit_stream<S: Listing<D>, D: Digest>(
    alloc: Global,
    committees: &Committees<S>,
    judging: Judging,
    stream: &[u8],
) -> Result<Report<S, D>, AllocError>
    ensures readable { IsLawful (⟦<S as Audited<D>>⟧.basis committees.now).format }
    ensures lawful { AreLawful (⟦<S as Audited<D>>⟧.basis committees.now).rules }
    ensures report { IfOk result (λ report.
        IsReport (⟦<S as Audited<D>>⟧.basis_under judging committees.now) stream.now report) }
    ensures encoded { IfOk result (λ report.
        All (⟦<S as Audited<D>>⟧.basis committees.now).format.is_value (as_messages report)) }
{
    let bound = reading_bound::<S, D>(committees);
    let detector = Detector::new(alloc);
    let (detector, progress) = read_messages(alloc, committees, judging, bound, stream, detector)?;
    let place = stream.len() - progress.rest.len();
    make_report(
        alloc,
        committees,
        &detector,
        progress.read,
        place,
        progress.stop,
    )
}
