//! The exports that say why the other calls refuse committees: which of their arguments is wrong.
//!
//! The number that is returned is that of the first of these that holds, 0 if none does:
//!
//! - 1: signatures have another size than 48, 64 or 96 bytes.
//! - 2: there is no size, so no committee.
//! - 3: there are not as many sizes as epochs, or without epochs more than one.
//! - 4: the epochs do not rise strictly.
//! - 5: a size is 0.
//! - 6: the keys have not 32 bytes for each participant: too few, too many, or part of a key.
//! - 7: a key stands twice in a committee.
//! - 8: it is not known whether a key stands twice, because an allocation failed; all else is right.

ghost use Rattle.std.specs.Prelude.{◌≡◌, ◌≢◌, ◌↔◌, length};
ghost use Rattle.simplex_border.specs.Keys.{AreKeys, IsLengthOfKeys};
ghost use Rattle.simplex_border.specs.Refusals.{AskedOfKeys, AskedOfVouched, IsFirstRefusal};
ghost use Rattle.simplex_border.specs.Signatures.{IsVouchedSize};
ghost use Rattle.simplex_border.specs.Sizes.{AreCommitteeSizes};

use simplex_border::refusals::{refusal_plain, refusal_vouched};
use std::alloc::Global;

/// Says why a call that takes signatures of so many bytes, epochs and sizes refuses them: a number from
/// 1 to 5 as above. Returns 0 if it does not.
#[unsafe(no_mangle)]
pub extern "C" fn simplex_refusal(signature: u32, epochs: &[u64], sizes: &[u32]) -> u32
    ensures first { IsFirstRefusal (AskedOfVouched signature epochs.now sizes.now) result }
    ensures accepted { result ≡ 0 ↔ IsVouchedSize signature × AreCommitteeSizes epochs.now sizes.now }
{
    refusal_vouched(signature, epochs, sizes)
}

/// Says why a call that takes epochs, sizes and keys of the plain scheme refuses them: a number from 2
/// to 8 as above. Returns 0 if it does not.
#[unsafe(no_mangle)]
pub extern "C" fn simplex_refusal_plain(
    alloc: Global,
    epochs: &[u64],
    sizes: &[u32],
    keys: &[u8],
) -> u32
    ensures first { result ≢ 8 → IsFirstRefusal (AskedOfKeys epochs.now sizes.now keys.now) result }
    ensures accepted { result ≡ 0 → AreKeys epochs.now sizes.now keys.now }
    ensures refused { result ≢ 0 → result ≢ 8 → ¬ AreKeys epochs.now sizes.now keys.now }
    ensures memory { result ≡ 8 → IsLengthOfKeys epochs.now sizes.now (length keys.now) }
{
    refusal_plain(alloc, epochs, sizes, keys)
}
