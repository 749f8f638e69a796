//! Makes the report of what was read and recorded.

ghost use Rattle.std.specs.Prelude.{◌≡◌, ◌+◌, ℕ, List, All, length, IfOk};
ghost use Rattle.simplex_stream.specs.Progress.{IsProgress};
ghost use Rattle.simplex_audit.specs.Report.{IsReport, as_messages};
ghost use Rattle.simplex_rules.specs.Rules.{HaveCommittees};
ghost use Rattle.simplex_rules.specs.declared.judging.Judging.{Judging};
ghost use Rattle.simplex_detector.specs.Detector.{Recalls};

use crate::audit::Report;
use crate::basis::Audited;
use simplex_base::codec::Error;
use simplex_detector::detector::Detector;
use simplex_scheme::committees::Committees;
use simplex_scheme::scheme::{Digest, Listing};
use simplex_stream::fault::fault_at;
use std::alloc::{AllocError, Global};

/// The report, from the number of messages, the state after them, and the reason why no other follows at a place.
pub fn make_report<S: Listing<D>, D: Digest>(
    alloc: Global,
    committees: &Committees<S>,
    detector: &Detector<S, D>,
    read: usize,
    place: usize,
    stop: Option<Error>,
) -> Result<Report<S, D>, AllocError>
    ensures report { IfOk result (λ report. (judging : Judging) (stream rest : List ℕ) →
        HaveCommittees (⟦<S as Audited<D>>⟧.basis_under judging committees.now).rules →
        place + length rest ≡ length stream →
        IsProgress (⟦<S as Audited<D>>⟧.basis committees.now).format (λ messages.
        Recalls (⟦<S as Audited<D>>⟧.basis_under judging committees.now).rules messages
        detector.now) stream rest read stop →
        IsReport (⟦<S as Audited<D>>⟧.basis_under judging committees.now) stream report) }
    ensures encoded { IfOk result (λ report.
        All (⟦<S as Audited<D>>⟧.basis committees.now).format.is_value (as_messages report)) }
{
    let evidence = detector.evidence(alloc)?;
    let splits = detector.splits(alloc, committees)?;
    let fault = fault_at(place, stop);
    Ok(Report {
        evidence,
        splits,
        read,
        fault,
    })
}
