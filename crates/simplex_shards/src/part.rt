//! The audit of one class of a stream that is not cut.

ghost use Rattle.std.specs.Prelude.{◌≡◌, ◌+◌, ◌<◌, ◌^◌, IfOk};
ghost use Rattle.simplex_audit.specs.Report.{IsReport};
ghost use Rattle.simplex_audit.specs.declared.audit.Report as reports;
ghost use Rattle.simplex_rules.specs.declared.judging.Judging.TheVariants.{Verified};
ghost use Rattle.simplex_shards.specs.Cut.{class_under};
ghost use Rattle.simplex_shards.specs.Part.{IsPartAudit, IsPartOf, is_class};

use crate::cut::Cut;
use crate::laws::format_laws;
use simplex_audit::audit::Report;
use simplex_audit::basis::Audited;
use simplex_base::codec::Encoding;
use simplex_base::positions::Roundable;
use simplex_detector::detector::Detector;
use simplex_evidence::types::Activity;
use simplex_laws::laws::{
    committees_are_lawful, evidence_is_determined, rounds_are_independent, splits_are_determined,
};
use simplex_rules::judging::Judging;
use simplex_rules::rules::Judges;
use simplex_scheme::committees::Committees;
use simplex_scheme::scheme::{Digest, Listing, SchemeTypes};
use simplex_stream::fault::fault_at;
use simplex_stream::messages::{Visitor, for_each_message};
use std::alloc::{AllocError, Global};

/// Records the messages of one class.
#[derive(Drop)]
pub(crate) struct PartRecorder<S: SchemeTypes, D: Digest> {
    pub(crate) cut: Cut,
    /// The class.
    pub(crate) class: u32,
    /// How many messages of the class came.
    pub(crate) read: usize,
    /// The state of these messages.
    pub(crate) detector: Detector<S, D>,
}

impl<S: Listing<D>, D: Digest> Visitor<Activity<S, D>> for PartRecorder<S, D> {
    ghost use Rattle.std.proofs.Common.{arith};
    ghost use Rattle.simplex_shards.specs.Part.{RecordsPart};
    ghost use Rattle.simplex_shards.specs.PartLaws.{part_none, part_more, part_left};

    type Context = Committees<S>;

    ghost follows = { λ committees. RecordsPart (⟦<S as Judges<D>>⟧.rules_under Verified committees) };

    ghost has_room = { λ state size. state.read + size < 2 ^ 64 };

    fn take(
        &mut self,
        alloc: Global,
        committees: &Committees<S>,
        _size: usize,
        message: &Activity<S, D>,
    ) -> Result<(), AllocError> {
        if self.cut.class_of(message.round()) != self.class {
            return Ok(());
        }
        self.detector
            .observe(alloc, committees, &Judging::Verified, message)?;
        self.read += 1;
        Ok(())
    }

    ghost none = { λ committees. part_none (⟦<S as Judges<D>>⟧.rules_under Verified committees) };

    ghost more = { λ committees. part_more (⟦<S as Judges<D>>⟧.rules_under Verified committees) };

    ghost less = { λ state n k room. Prim.omega (arith, room) };

    ghost left = { λ committees m a b n one room. part_left
        (⟦<S as Judges<D>>⟧.rules_under Verified committees) m a b _ n (Prim.omega arith) one room };
}

/// The report of one class of a stream, which is read as a whole, under the bound of the greatest committee: messages of other
/// classes are neither verified nor recorded. The report has the evidence and the splits that [`audit`] returns of the whole
/// stream in the rounds of the class. `read` counts the messages of the class alone, and `fault` is the stream's.
/// `AllocError` is returned only after an allocation failed.
///
/// [`audit`]: simplex_audit::audit::audit
pub fn audit_part<S: Listing<D>, D: Digest>(
    alloc: Global,
    committees: &Committees<S>,
    cut: &Cut,
    class: u32,
    stream: &[u8],
) -> Result<Report<S, D>, AllocError>
    ensures part { IfOk result (λ report. IsPartAudit (⟦<S as Audited<D>>⟧.basis committees.now)
        (is_class (class_under cut.now) class) stream.now report) }
    // Of any report of the whole stream it has the evidence and the splits of the class.
    ensures whole { IfOk result (λ report. (whole : reports.Report S D S.PublicKey S.Signature) →
        IsReport (⟦<S as Audited<D>>⟧.basis committees.now) stream.now whole →
        IsPartOf (is_class (class_under cut.now) class) whole report) }
{
    format_laws::<S, D>();
    rounds_are_independent::<S, D>();
    evidence_is_determined::<S, D>();
    splits_are_determined::<S, D>();
    record_part(alloc, committees, cut, class, stream)
}

/// The report of one class of a stream.
fn record_part<S: Listing<D>, D: Digest>(
    alloc: Global,
    committees: &Committees<S>,
    cut: &Cut,
    class: u32,
    stream: &[u8],
) -> Result<Report<S, D>, AllocError>
    ensures { IfOk result (λ report. IsPartAudit (⟦<S as Audited<D>>⟧.basis committees.now)
        (is_class (class_under cut.now) class) stream.now report) }
{
    committees_are_lawful::<S, D>();
    format_laws::<S, D>();
    let bound = committees.bound();
    let detector = Detector::new(alloc);
    let (cut, read) = (*cut, 0);
    let mut recorder = PartRecorder {
        cut,
        class,
        read,
        detector,
    };
    let progress = for_each_message::<Activity<S, D>, PartRecorder<S, D>>(
        alloc,
        committees,
        bound,
        stream,
        &mut recorder,
    )?;
    let place = stream.len() - progress.rest.len();
    let evidence = recorder.detector.evidence(alloc)?;
    let splits = recorder.detector.splits(alloc, committees)?;
    Ok(Report {
        evidence,
        splits,
        read: recorder.read,
        fault: fault_at(place, progress.stop),
    })
}
