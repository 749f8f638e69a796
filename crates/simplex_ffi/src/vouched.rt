//! Audits of streams whose signatures the caller verified.

ghost use Rattle.std.specs.Prelude.{◌≡◌, ◌≢◌, ◌⊎◌, ◌++◌};
ghost use Rattle.simplex_scheme.specs.Committees.{Schedule};
ghost use Rattle.simplex_schemes.specs.Vouched.{VouchedScheme};
ghost use Rattle.simplex_border.specs.Answer.{IsAudited};
ghost use Rattle.simplex_border.specs.Sizes.{AreSizes, AreCommitteeSizes};
ghost use Rattle.simplex_ffi.specs.Answer.{AreStored};

use crate::store::store;
use simplex_audit::basis::Audited;
use simplex_base::codec::Fixed;
use simplex_base::codec::fixed_bytes::Role;
use simplex_border::answer::{ARGUMENTS, MEMORY, ReportSummary, answer};
use simplex_border::sizes::committees;
use simplex_scheme::scheme::Sha256Digest;
use simplex_schemes::vouched::Vouched;
use std::alloc::Global;

/// Audits a stream whose signatures have `N` bytes, the last of which is the caller's verdict,
/// under the committees of these sizes. The status is that of [`answer`], or [`ARGUMENTS`] where
/// there are no such committees, and then nothing is written.
pub fn answer_vouched<R: Role<N>, const N: usize>(
    alloc: Global,
    epochs: &[u64],
    sizes: &[u32],
    stream: &[u8],
    buffer: &mut [u8],
    summary: &mut ReportSummary,
) -> u32
    ensures audited { result ≢ 2 → result ≢ 3 → (committees : Schedule VouchedScheme) ×
        AreSizes epochs.now sizes.now committees ×
        IsAudited (⟦<Vouched<R, N> as Audited<Sha256Digest>>⟧.basis committees)
        ⟦<Sha256Digest as Fixed>⟧.bytes_of stream.now buffer.old buffer.new summary.new result }
    ensures refused { result ≡ 2 → (committees : Schedule VouchedScheme) →
        ¬ AreSizes epochs.now sizes.now committees }
    ensures memory { result ≡ 3 → AreCommitteeSizes epochs.now sizes.now }
    ensures untouched { (result ≡ 2) ⊎ (result ≡ 3) →
        (buffer.new ≡ buffer.old) × (summary.new ≡ summary.old) }
{
    match committees::<R, N>(alloc, epochs, sizes) {
        Ok(Some(committees)) => {
            answer::<Vouched<R, N>, Sha256Digest>(alloc, &committees, stream, buffer, summary)
        }
        Ok(None) => ARGUMENTS,
        Err(_) => MEMORY,
    }
}

/// Stores the evidence of what was stored and of a batch behind it, whose signatures have `N`
/// bytes, the last of which is the caller's verdict, under the committees of these sizes. The
/// status is that of [`store`], or [`ARGUMENTS`] where there are no such committees, and then
/// nothing is written.
pub fn store_vouched<R: Role<N>, const N: usize>(
    alloc: Global,
    epochs: &[u64],
    sizes: &[u32],
    stored: &[u8],
    batch: &[u8],
    buffer: &mut [u8],
    size: &mut usize,
) -> u32
    ensures stored { result ≢ 2 → result ≢ 3 → (committees : Schedule VouchedScheme) ×
        AreSizes epochs.now sizes.now committees ×
        AreStored (⟦<Vouched<R, N> as Audited<Sha256Digest>>⟧.basis committees)
        (stored.now ++ batch.now) buffer.old buffer.new size.new result }
    ensures refused { result ≡ 2 → (committees : Schedule VouchedScheme) →
        ¬ AreSizes epochs.now sizes.now committees }
    ensures memory { result ≡ 3 → AreCommitteeSizes epochs.now sizes.now }
    ensures untouched { (result ≡ 2) ⊎ (result ≡ 3) →
        (buffer.new ≡ buffer.old) × (size.new ≡ size.old) }
{
    match committees::<R, N>(alloc, epochs, sizes) {
        Ok(Some(committees)) => {
            store::<Vouched<R, N>, Sha256Digest>(alloc, &committees, stored, batch, buffer, size)
        }
        Ok(None) => ARGUMENTS,
        Err(_) => MEMORY,
    }
}
