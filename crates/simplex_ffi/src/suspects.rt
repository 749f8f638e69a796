//! The attestations that have to be verified before a stream is audited, put into a buffer.

ghost use Rattle.std.specs.Prelude.{◌≡◌, ◌≢◌, ◌⊎◌, ◌-◌, IfOk};
ghost use Rattle.simplex_scheme.specs.Committees.{Schedule};
ghost use Rattle.simplex_schemes.specs.Vouched.{VouchedScheme};
ghost use Rattle.simplex_border.specs.Sizes.{AreSizes, AreCommitteeSizes};
ghost use Rattle.simplex_ffi.specs.Answer.{AreAttestationsGiven, AreUnverified};

use simplex_audit::audit::Committees;
use simplex_audit::basis::Audited;
use simplex_base::codec::fixed_bytes::Role;
use simplex_border::answer::{ARGUMENTS, MEMORY, SHORT, WHOLE, put};
use simplex_border::sizes::committees;
use simplex_places::located::{Counted, Located};
use simplex_places::repeats::{Unverified, with_firsts};
use simplex_places::suspects::suspects;
use simplex_scheme::scheme::{Digest, Sha256Digest};
use simplex_schemes::vouched::Vouched;
use std::alloc::{AllocError, Global};

/// The attestations of a stream that have to be verified, each with the first that is the same. A signature has `size` bytes
/// before its verdict.
fn listed<S: Counted<D>, D: Digest>(
    alloc: Global,
    committees: &Committees<S>,
    size: usize,
    stream: &[u8],
) -> Result<Vec<Unverified>, AllocError>
    ensures { IfOk result (λ found. AreUnverified (⟦<S as Audited<D>>⟧.basis committees.now)
        ⟦<S as Located<D>>⟧.places size stream.now found.items) }
{
    let found = suspects::<S, D>(alloc, committees, stream)?;
    with_firsts(alloc, stream, size, &found)
}

/// Puts the attestations of a stream that have to be verified at the start of a buffer, each with the first that is the same.
/// A signature has `size` bytes before its verdict. The status is [`WHOLE`], [`MEMORY`] or [`SHORT`]. Where an allocation
/// failed nothing is written; where the buffer is too short it is as before, and how many records are needed is written.
fn give<S: Counted<D>, D: Digest>(
    alloc: Global,
    committees: &Committees<S>,
    size: usize,
    stream: &[u8],
    records: &mut [Unverified],
    needed: &mut usize,
) -> u32
    ensures given { result ≢ 3 → AreAttestationsGiven (⟦<S as Audited<D>>⟧.basis committees.now)
        ⟦<S as Located<D>>⟧.places size stream.now records.old records.new needed.new result }
    ensures memory { result ≡ 3 → (records.new ≡ records.old) × (needed.new ≡ needed.old) }
    ensures status { result ≢ 2 }
{
    let Ok(found) = listed::<S, D>(alloc, committees, size, stream) else {
        return MEMORY;
    };
    *needed = found.len();
    if put(&found, records) { WHOLE } else { SHORT }
}

/// Puts the attestations that have to be verified at the start of a buffer, each with the first that is the same: those of a
/// stream whose signatures have `N` bytes, the last of which is the caller's verdict and may still be any byte, under the
/// committees of these sizes. The status is [`WHOLE`], [`MEMORY`] or [`SHORT`], or
/// [`ARGUMENTS`] where there are no such committees, and then nothing is written.
pub fn suspects_vouched<R: Role<N>, const N: usize>(
    alloc: Global,
    epochs: &[u64],
    sizes: &[u32],
    stream: &[u8],
    records: &mut [Unverified],
    needed: &mut usize,
) -> u32
    ensures given { result ≢ 2 → result ≢ 3 → (committees : Schedule VouchedScheme) ×
        AreSizes epochs.now sizes.now committees ×
        AreAttestationsGiven (⟦<Vouched<R, N> as Audited<Sha256Digest>>⟧.basis committees)
        ⟦<Vouched<R, N> as Located<Sha256Digest>>⟧.places (N - 1)
        stream.now records.old records.new needed.new result }
    ensures refused { result ≡ 2 → (committees : Schedule VouchedScheme) →
        ¬ AreSizes epochs.now sizes.now committees }
    ensures memory { result ≡ 3 → AreCommitteeSizes epochs.now sizes.now }
    ensures untouched { (result ≡ 2) ⊎ (result ≡ 3) →
        (records.new ≡ records.old) × (needed.new ≡ needed.old) }
{
    match committees::<R, N>(alloc, epochs, sizes) {
        Ok(Some(committees)) => {
            let size = N.saturating_sub(1);
            give::<Vouched<R, N>, Sha256Digest>(alloc, &committees, size, stream, records, needed)
        }
        Ok(None) => ARGUMENTS,
        Err(_) => MEMORY,
    }
}
