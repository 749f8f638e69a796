//! What a ledger stores, put into a buffer.

ghost use Rattle.std.specs.Prelude.{◌≡◌, ◌≢◌, ◌+◌, ◌<◌, ◌++◌, IfOk};
ghost use Rattle.simplex_audit.specs.Holding.{IsStored};
ghost use Rattle.simplex_ffi.specs.Answer.{AreStored};

use simplex_audit::audit::Committees;
use simplex_audit::basis::Audited;
use simplex_audit::ledger::Ledger;
use simplex_border::answer::{MEMORY, SHORT, WHOLE, put};
use simplex_scheme::scheme::{Digest, Listing};
use std::alloc::{AllocError, Global};

/// The evidence of what was stored and of a batch behind it, as messages.
fn stored_after<S: Listing<D>, D: Digest>(
    alloc: Global,
    committees: &Committees<S>,
    stored: &[u8],
    batch: &[u8],
) -> Result<Vec<u8>, AllocError>
    ensures { IfOk result (λ bytes.
        IsStored (⟦<S as Audited<D>>⟧.basis committees.now) (stored.now ++ batch.now) bytes.items) }
{
    let resumed = Ledger::<S, D>::resume(alloc, committees, stored)?;
    let ledger = resumed.feed(batch)?;
    ledger.store(alloc)
}

/// Puts the evidence of what was stored and of a batch behind it, as messages, at the start of a
/// buffer. The status is [`WHOLE`], [`MEMORY`] or [`SHORT`]. Where an allocation failed nothing is
/// written; where the buffer is too short it is as before, and the length that is needed is
/// written.
pub fn store<S: Listing<D>, D: Digest>(
    alloc: Global,
    committees: &Committees<S>,
    stored: &[u8],
    batch: &[u8],
    buffer: &mut [u8],
    size: &mut usize,
) -> u32
    ensures stored { result ≢ 3 →
        AreStored (⟦<S as Audited<D>>⟧.basis committees.now) (stored.now ++ batch.now)
        buffer.old buffer.new size.new result }
    ensures memory { result ≡ 3 → (buffer.new ≡ buffer.old) × (size.new ≡ size.old) }
    ensures status { result ≢ 2 }
{
    let Ok(bytes) = stored_after::<S, D>(alloc, committees, stored, batch) else {
        return MEMORY;
    };
    *size = bytes.len();
    if put(&bytes, buffer) { WHOLE } else { SHORT }
}
