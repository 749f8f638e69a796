//! How many bytes signatures have that the caller verified.

ghost use Rattle.std.specs.Prelude.{◌≡◌, None, IfSome};
ghost use Rattle.simplex_border.specs.Signatures.{IsVouchedSize, size_in_bytes};

/// How many bytes the signatures of a stream have, the caller's verdict behind each not counted.
#[derive(Clone, Copy, Debug)]
pub enum VouchedSize {
    /// 48, such as those of BLS12-381 in G1.
    Of48,
    /// 64, such as those of Ed25519.
    Of64,
    /// 96, such as those of BLS12-381 in G2.
    Of96,
}

/// The size of signatures of so many bytes, if they can have verdicts: of 48, 64 or 96.
pub fn vouched_size(signature: u32) -> Option<VouchedSize>
    ensures some { IfSome result (λ size. signature ≡ size_in_bytes size) }
    ensures none { result ≡ None → ¬ IsVouchedSize signature }
{
    match signature {
        48 => Some(VouchedSize::Of48),
        64 => Some(VouchedSize::Of64),
        96 => Some(VouchedSize::Of96),
        _ => None,
    }
}
