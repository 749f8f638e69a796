//! An auditor of signatures of any size that callers verify, or of keys.

ghost use Rattle.std.specs.Prelude.{◌≡◌, ◌≢◌, ◌⊎◌, ℕ, List, IfErr, IfOk, IfSome, None, Ok, length};
ghost use Rattle.simplex_base.specs.Format.{format_of};
ghost use Rattle.simplex_base.specs.Positions as positions;
ghost use Rattle.simplex_scheme.specs.Committees.{Schedule};
ghost use Rattle.simplex_schemes.specs.Plain.{PlainScheme};
ghost use Rattle.simplex_schemes.specs.Vouched.{VouchedScheme};
ghost use Rattle.simplex_border.specs.Keys.{AreKeys, AreOfKeys, IsLengthOfKeys};
ghost use Rattle.simplex_border.specs.Signatures.{IsVouchedSize};
ghost use Rattle.simplex_border.specs.Sizes.{AreCommitteeSizes, AreSizes};
ghost use Rattle.simplex_handle.specs.Replies.{Begins};
ghost use Rattle.simplex_handle.specs.Roster.{Bases, Encodings, IsOfSize, OfKeys, Roster};
ghost use Rattle.simplex_handle.specs.Standing.{Beginning, Between, Counting, Deferring, Feeding, Following, Pruning, Reporting, Saving, Telling};

use crate::replies;
use simplex_audit::basis::Audited;
use simplex_base::codec::Read;
use simplex_base::codec::fixed_bytes::Role;
use simplex_base::positions::Round;
use simplex_border::answer::{ARGUMENTS, ReportSummary};
use simplex_border::signatures::{VouchedSize, vouched_size};
use simplex_border::{keys, sizes};
use simplex_places::repeats::Unverified;
use simplex_scheme::scheme::{SchemeTypes, Sha256Digest};
use simplex_schemes::plain::Plain;
use simplex_schemes::vouched::{Role48, Role64, Role96, Vouched};
use simplex_tracker::live::LiveAuditor;
use std::alloc::{AllocError, Global};

/// An auditor whose signatures have a size that is known when it is made.
#[derive(Drop)]
pub enum AnyAuditor {
    /// Of signatures of 48 bytes, each with the caller's verdict behind it.
    Vouched48(LiveAuditor<Vouched<Role48, 49>, Sha256Digest>),
    /// Of 64 bytes.
    Vouched64(LiveAuditor<Vouched<Role64, 65>, Sha256Digest>),
    /// Of 96 bytes.
    Vouched96(LiveAuditor<Vouched<Role96, 97>, Sha256Digest>),
    /// Of the plain scheme.
    Keyed(LiveAuditor<Plain, Sha256Digest>),
}

/// By what an auditor judges, for contracts alone.
pub trait Judged {
    /// How messages are read and judged, for each size of signatures and for keys.
    ghost bases: { Bases };

    /// How payloads and signatures are encoded.
    ghost encodings: { Encodings };
}

impl Judged for AnyAuditor {
    ghost bases = { record {
      of_48 = ⟦<Vouched<Role48, 49> as Audited<Sha256Digest>>⟧.basis;
      of_64 = ⟦<Vouched<Role64, 65> as Audited<Sha256Digest>>⟧.basis;
      of_96 = ⟦<Vouched<Role96, 97> as Audited<Sha256Digest>>⟧.basis;
      of_keys = ⟦<Plain as Audited<Sha256Digest>>⟧.basis;
    } };

    ghost encodings = { record {
      payload = format_of ⟦<Sha256Digest as Read>⟧;
      of_48 = format_of ⟦<<Vouched<Role48, 49> as SchemeTypes>::Signature as Read>⟧;
      of_64 = format_of ⟦<<Vouched<Role64, 65> as SchemeTypes>::Signature as Read>⟧;
      of_96 = format_of ⟦<<Vouched<Role96, 97> as SchemeTypes>::Signature as Read>⟧;
      of_keys = format_of ⟦<<Plain as SchemeTypes>::Signature as Read>⟧;
    } };
}

/// An auditor of the committees of these sizes that was fed what another one held, or nothing. `None` if there are no such
/// committees. `AllocError` only where an allocation failed.
fn vouched<R: Role<N>, const N: usize>(
    alloc: Global,
    epochs: &[u64],
    sizes: &[u32],
    held: &[u8],
) -> Result<Option<LiveAuditor<Vouched<R, N>, Sha256Digest>>, AllocError>
    ensures some { IfOk result (λ answer. IfSome answer (λ live. (committees : Schedule VouchedScheme) ×
        AreSizes epochs.now sizes.now committees ×
        Begins ⟦<Vouched<R, N> as Audited<Sha256Digest>>⟧.basis committees held.now live)) }
    ensures none { result ≡ Ok None → (committees : Schedule VouchedScheme) →
        ¬ AreSizes epochs.now sizes.now committees }
    ensures memory { IfErr result (λ _. AreCommitteeSizes epochs.now sizes.now) }
{
    match sizes::committees::<R, N>(alloc, epochs, sizes)? {
        Some(committees) => Ok(Some(LiveAuditor::new(alloc, committees, held)?)),
        None => Ok(None),
    }
}

impl AnyAuditor {
    /// An auditor of signatures of 48, 64 or 96 bytes, of the committees of these sizes, that was fed what another one held,
    /// or nothing. `None` if signatures have another size, or there are no such committees. `AllocError` only where an
    /// allocation failed.
    pub fn of_sizes(
        alloc: Global,
        signature: u32,
        epochs: &[u64],
        sizes: &[u32],
        held: &[u8],
    ) -> Result<Option<AnyAuditor>, AllocError>
        ensures some { IfOk result (λ answer. IfSome answer (λ any. (committees : Schedule VouchedScheme) ×
            AreSizes epochs.now sizes.now committees × ((roster : Roster) ×
            IsOfSize signature committees roster ×
            Between ⟦<AnyAuditor as Judged>⟧.bases (Beginning held.now) roster any any))) }
        ensures none { result ≡ Ok None → IsVouchedSize signature →
            (committees : Schedule VouchedScheme) → ¬ AreSizes epochs.now sizes.now committees }
        ensures memory { IfErr result (λ _. IsVouchedSize signature × AreCommitteeSizes epochs.now sizes.now) }
    {
        match vouched_size(signature) {
            Some(VouchedSize::Of48) => match vouched::<Role48, 49>(alloc, epochs, sizes, held)? {
                Some(live) => Ok(Some(AnyAuditor::Vouched48(live))),
                None => Ok(None),
            },
            Some(VouchedSize::Of64) => match vouched::<Role64, 65>(alloc, epochs, sizes, held)? {
                Some(live) => Ok(Some(AnyAuditor::Vouched64(live))),
                None => Ok(None),
            },
            Some(VouchedSize::Of96) => match vouched::<Role96, 97>(alloc, epochs, sizes, held)? {
                Some(live) => Ok(Some(AnyAuditor::Vouched96(live))),
                None => Ok(None),
            },
            None => Ok(None),
        }
    }

    /// An auditor of the plain scheme, of the committees of these keys, that was fed what another one held, or nothing. `None`
    /// if there are no such committees. `AllocError` only where an allocation failed.
    pub fn of_keys(
        alloc: Global,
        namespace: &[u8],
        epochs: &[u64],
        sizes: &[u32],
        keys: &[u8],
        held: &[u8],
    ) -> Result<Option<AnyAuditor>, AllocError>
        ensures some { IfOk result (λ answer. IfSome answer (λ any. (committees : Schedule PlainScheme) ×
            AreOfKeys namespace.now epochs.now sizes.now keys.now committees ×
            Between ⟦<AnyAuditor as Judged>⟧.bases (Beginning held.now) (OfKeys committees) any any)) }
        ensures none { result ≡ Ok None → ¬ AreKeys epochs.now sizes.now keys.now }
        ensures memory { IfErr result (λ _. IsLengthOfKeys epochs.now sizes.now (length keys.now)) }
    {
        match keys::committees(alloc, namespace, epochs, sizes, keys)? {
            Some(committees) => Ok(Some(AnyAuditor::Keyed(LiveAuditor::new(
                alloc, committees, held,
            )?))),
            None => Ok(None),
        }
    }

    /// Feeds a piece. The status is that of [`replies::feed`].
    pub fn feed(&mut self, alloc: Global, piece: &[u8]) -> u32
        ensures feeds { (roster : Roster) (floor : positions.Round) (stream : List ℕ) →
            Between ⟦<AnyAuditor as Judged>⟧.bases (Following floor stream) roster self.old self.old →
            Between ⟦<AnyAuditor as Judged>⟧.bases (Feeding floor stream piece.now result) roster self.old self.new }
        ensures status { (result ≡ 0) ⊎ (result ≡ 1) ⊎ (result ≡ 3) ⊎ (result ≡ 5) }
    {
        match self {
            AnyAuditor::Vouched48(live) => replies::feed(alloc, live, piece),
            AnyAuditor::Vouched64(live) => replies::feed(alloc, live, piece),
            AnyAuditor::Vouched96(live) => replies::feed(alloc, live, piece),
            AnyAuditor::Keyed(live) => replies::feed(alloc, live, piece),
        }
    }

    /// Gives up all rounds below a floor.
    pub fn prune(&mut self, lowest: Round)
        ensures { (roster : Roster) (floor : positions.Round) (stream : List ℕ) →
            Between ⟦<AnyAuditor as Judged>⟧.bases (Following floor stream) roster self.old self.old →
            Between ⟦<AnyAuditor as Judged>⟧.bases (Pruning floor stream lowest) roster self.old self.new }
    {
        match self {
            AnyAuditor::Vouched48(live) => replies::prune(live, lowest),
            AnyAuditor::Vouched64(live) => replies::prune(live, lowest),
            AnyAuditor::Vouched96(live) => replies::prune(live, lowest),
            AnyAuditor::Keyed(live) => replies::prune(live, lowest),
        }
    }

    /// Puts the text of the report into a buffer. The status is that of [`replies::report`].
    pub fn report(&mut self, alloc: Global, buffer: &mut [u8], summary: &mut ReportSummary) -> u32
        ensures reports { (roster : Roster) (floor : positions.Round) (stream : List ℕ) →
            Between ⟦<AnyAuditor as Judged>⟧.bases (Following floor stream) roster self.old self.old →
            Between ⟦<AnyAuditor as Judged>⟧.bases (Reporting floor stream buffer.old buffer.new summary.new result)
            roster self.old self.new }
        ensures memory { result ≡ 3 → (buffer.new ≡ buffer.old) × (summary.new ≡ summary.old) }
        ensures status { (result ≡ 0) ⊎ (result ≡ 1) ⊎ (result ≡ 3) ⊎ (result ≡ 4) }
    {
        match self {
            AnyAuditor::Vouched48(live) => replies::report(alloc, live, buffer, summary),
            AnyAuditor::Vouched64(live) => replies::report(alloc, live, buffer, summary),
            AnyAuditor::Vouched96(live) => replies::report(alloc, live, buffer, summary),
            AnyAuditor::Keyed(live) => replies::report(alloc, live, buffer, summary),
        }
    }

    /// Counts the recorded votes. The status is that of [`replies::votes`].
    pub fn votes(&mut self, alloc: Global, count: &mut usize) -> u32
        ensures counts { (roster : Roster) (floor : positions.Round) (stream : List ℕ) →
            Between ⟦<AnyAuditor as Judged>⟧.bases (Following floor stream) roster self.old self.old →
            Between ⟦<AnyAuditor as Judged>⟧.bases (Counting floor stream count.new result) roster self.old self.new }
        ensures memory { result ≡ 3 → count.new ≡ count.old }
        ensures status { (result ≡ 0) ⊎ (result ≡ 3) }
    {
        match self {
            AnyAuditor::Vouched48(live) => replies::votes(alloc, live, count),
            AnyAuditor::Vouched64(live) => replies::votes(alloc, live, count),
            AnyAuditor::Vouched96(live) => replies::votes(alloc, live, count),
            AnyAuditor::Keyed(live) => replies::votes(alloc, live, count),
        }
    }

    /// Puts what is held into a buffer. The status is that of [`replies::save`].
    pub fn save(&mut self, alloc: Global, buffer: &mut [u8], size: &mut usize) -> u32
        ensures saves { (roster : Roster) (floor : positions.Round) (stream : List ℕ) →
            Between ⟦<AnyAuditor as Judged>⟧.bases (Following floor stream) roster self.old self.old →
            Between ⟦<AnyAuditor as Judged>⟧.bases (Saving floor stream buffer.old buffer.new size.new result)
            roster self.old self.new }
        ensures memory { result ≡ 3 → (buffer.new ≡ buffer.old) × (size.new ≡ size.old) }
        ensures status { (result ≡ 0) ⊎ (result ≡ 3) ⊎ (result ≡ 4) }
    {
        match self {
            AnyAuditor::Vouched48(live) => replies::save(alloc, live, buffer, size),
            AnyAuditor::Vouched64(live) => replies::save(alloc, live, buffer, size),
            AnyAuditor::Vouched96(live) => replies::save(alloc, live, buffer, size),
            AnyAuditor::Keyed(live) => replies::save(alloc, live, buffer, size),
        }
    }

    /// Puts what waits to be handed over into a buffer. The status is that of [`replies::tell`].
    pub fn tell(&mut self, alloc: Global, buffer: &mut [u8], size: &mut usize) -> u32
        ensures tells { (roster : Roster) (floor : positions.Round) (stream : List ℕ) →
            Between ⟦<AnyAuditor as Judged>⟧.bases (Following floor stream) roster self.old self.old →
            Between ⟦<AnyAuditor as Judged>⟧.bases (Telling floor stream buffer.old buffer.new size.new result)
            roster self.old self.new }
        ensures memory { result ≡ 3 → (buffer.new ≡ buffer.old) × (size.new ≡ size.old) }
        ensures status { (result ≡ 0) ⊎ (result ≡ 3) ⊎ (result ≡ 4) }
    {
        match self {
            AnyAuditor::Vouched48(live) => replies::tell(alloc, live, buffer, size),
            AnyAuditor::Vouched64(live) => replies::tell(alloc, live, buffer, size),
            AnyAuditor::Vouched96(live) => replies::tell(alloc, live, buffer, size),
            AnyAuditor::Keyed(live) => replies::tell(alloc, live, buffer, size),
        }
    }

    /// Puts what has to be verified of a piece, before it is fed, into a buffer. The status is that of
    /// [`replies::unverified`], and 2 of an auditor of keys, which verifies the signatures itself.
    pub fn unverified(
        &mut self,
        alloc: Global,
        bytes: &[u8],
        records: &mut [Unverified],
        needed: &mut usize,
        whole: &mut usize,
    ) -> u32
        ensures defers { (roster : Roster) (floor : positions.Round) (stream : List ℕ) →
            Between ⟦<AnyAuditor as Judged>⟧.bases (Following floor stream) roster self.old self.old →
            Between ⟦<AnyAuditor as Judged>⟧.bases (Deferring floor stream ⟦<AnyAuditor as Judged>⟧.encodings
            bytes.now records.old records.new needed.new whole.new result roster) roster self.old self.new }
        ensures untouched { (result ≡ 2) ⊎ (result ≡ 3) → (records.new ≡ records.old) ×
            (needed.new ≡ needed.old) × (whole.new ≡ whole.old) }
        ensures status { (result ≡ 0) ⊎ (result ≡ 1) ⊎ (result ≡ 2) ⊎ (result ≡ 3) ⊎ (result ≡ 4) }
    {
        match self {
            AnyAuditor::Vouched48(live) => {
                replies::unverified(alloc, live, 48, bytes, records, needed, whole)
            }
            AnyAuditor::Vouched64(live) => {
                replies::unverified(alloc, live, 64, bytes, records, needed, whole)
            }
            AnyAuditor::Vouched96(live) => {
                replies::unverified(alloc, live, 96, bytes, records, needed, whole)
            }
            AnyAuditor::Keyed(_) => ARGUMENTS,
        }
    }
}
