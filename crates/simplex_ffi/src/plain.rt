//! Audits of streams of the plain scheme.

ghost use Rattle.std.specs.Prelude.{◌≡◌, ◌≢◌, ◌⊎◌, ◌++◌, length};
ghost use Rattle.simplex_schemes.specs.Plain.{PlainScheme};
ghost use Rattle.simplex_scheme.specs.Committees.{Schedule};
ghost use Rattle.simplex_border.specs.Answer.{IsAudited};
ghost use Rattle.simplex_border.specs.Keys.{AreKeys, AreOfKeys, IsLengthOfKeys};
ghost use Rattle.simplex_ffi.specs.Answer.{AreStored};

use crate::store::store;
use simplex_audit::basis::Audited;
use simplex_base::codec::Fixed;
use simplex_border::answer::{ARGUMENTS, MEMORY, ReportSummary, answer};
use simplex_border::keys::committees;
use simplex_scheme::scheme::Sha256Digest;
use simplex_schemes::plain::Plain;
use std::alloc::Global;

/// Audits a stream under the committees of these keys, as [`committees`] has them. The status is that of
/// [`answer`], or [`ARGUMENTS`] where there are no such committees, and then nothing is written.
pub fn answer_plain(
    alloc: Global,
    namespace: &[u8],
    epochs: &[u64],
    sizes: &[u32],
    keys: &[u8],
    stream: &[u8],
    buffer: &mut [u8],
    summary: &mut ReportSummary,
) -> u32
    ensures audited { result ≢ 2 → result ≢ 3 → (committees : Schedule PlainScheme) ×
        AreOfKeys namespace.now epochs.now sizes.now keys.now committees ×
        IsAudited (⟦<Plain as Audited<Sha256Digest>>⟧.basis committees)
        ⟦<Sha256Digest as Fixed>⟧.bytes_of stream.now buffer.old buffer.new summary.new result }
    ensures refused { result ≡ 2 → ¬ AreKeys epochs.now sizes.now keys.now }
    ensures memory { result ≡ 3 → IsLengthOfKeys epochs.now sizes.now (length keys.now) }
    ensures untouched { (result ≡ 2) ⊎ (result ≡ 3) →
        (buffer.new ≡ buffer.old) × (summary.new ≡ summary.old) }
{
    match committees(alloc, namespace, epochs, sizes, keys) {
        Ok(Some(committees)) => {
            answer::<Plain, Sha256Digest>(alloc, &committees, stream, buffer, summary)
        }
        Ok(None) => ARGUMENTS,
        Err(_) => MEMORY,
    }
}

/// Stores the evidence of what was stored and of a batch behind it, under the committees of these
/// keys. The status is that of [`store`], or [`ARGUMENTS`] where there are no such committees, and then
/// nothing is written.
pub fn store_plain(
    alloc: Global,
    namespace: &[u8],
    epochs: &[u64],
    sizes: &[u32],
    keys: &[u8],
    stored: &[u8],
    batch: &[u8],
    buffer: &mut [u8],
    size: &mut usize,
) -> u32
    ensures stored { result ≢ 2 → result ≢ 3 → (committees : Schedule PlainScheme) ×
        AreOfKeys namespace.now epochs.now sizes.now keys.now committees ×
        AreStored (⟦<Plain as Audited<Sha256Digest>>⟧.basis committees) (stored.now ++ batch.now)
        buffer.old buffer.new size.new result }
    ensures refused { result ≡ 2 → ¬ AreKeys epochs.now sizes.now keys.now }
    ensures memory { result ≡ 3 → IsLengthOfKeys epochs.now sizes.now (length keys.now) }
    ensures untouched { (result ≡ 2) ⊎ (result ≡ 3) →
        (buffer.new ≡ buffer.old) × (size.new ≡ size.old) }
{
    match committees(alloc, namespace, epochs, sizes, keys) {
        Ok(Some(committees)) => {
            store::<Plain, Sha256Digest>(alloc, &committees, stored, batch, buffer, size)
        }
        Ok(None) => ARGUMENTS,
        Err(_) => MEMORY,
    }
}
