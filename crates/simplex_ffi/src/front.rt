//! A message at the front of some bytes, and one that is all of them.

ghost use Rattle.std.specs.Prelude.{◌≡◌, ℕ, List, None, Ok, IfOk, IfSome, length};
ghost use Rattle.simplex_base.specs.Format.{Encoded};

use simplex_base::codec::parts::known_bytes;
use simplex_base::codec::{Error, Read, decode_cfg};
use std::alloc::{AllocError, Global};

/// No message, unless memory was wanting.
fn refused<M>(error: Error) -> Result<Option<M>, AllocError>
    ensures none { result ≡ Ok None → error ≡ Error.OutOfMemory → ⊥ }
    ensures some { IfOk result (λ found. found ≡ None) }
{
    match error {
        Error::OutOfMemory => Err(AllocError),
        _ => Ok(None),
    }
}

/// The message at the front of some bytes, if there is one, and how many bytes it has. `AllocError` only where an allocation
/// failed.
pub(crate) fn read_front<M: Read>(
    alloc: Global,
    bytes: &[u8],
    cfg: &M::Cfg,
) -> Result<Option<(M, usize)>, AllocError>
    ensures front { IfOk result (λ found. IfSome found (λ (message, size). (rest : List ℕ) ×
        Encoded (M.fits cfg.now) M.encoding bytes.now message rest ×
        (size ≡ length (M.encoding message)))) }
    ensures none { result ≡ Ok None → (message : M) (rest : List ℕ) →
        Encoded (M.fits cfg.now) M.encoding bytes.now message rest → ⊥ }
{
    let mut rest: &[u8] = known_bytes(bytes);
    match M::read_cfg(alloc, &mut rest, cfg) {
        Ok(message) => Ok(Some((message, bytes.len() - rest.len()))),
        Err(error) => refused(error),
    }
}

/// The message that is all of the bytes, if there is one. `AllocError` only where an allocation failed.
pub(crate) fn read_whole<M: Read + Drop>(
    alloc: Global,
    bytes: &[u8],
    cfg: &M::Cfg,
) -> Result<Option<M>, AllocError>
    ensures whole { IfOk result (λ found. IfSome found (λ message.
        M.fits cfg.now message × (bytes.now ≡ M.encoding message))) }
    ensures none { result ≡ Ok None → (message : M) → M.fits cfg.now message →
        bytes.now ≡ M.encoding message → ⊥ }
    // No two messages have the same bytes.
    ensures one { (x y : M) → M.fits cfg.now x → M.fits cfg.now y → bytes.now ≡ M.encoding x →
        bytes.now ≡ M.encoding y → x ≡ y }
{
    match decode_cfg::<M>(alloc, bytes, cfg) {
        Ok(message) => Ok(Some(message)),
        Err(error) => refused(error),
    }
}
