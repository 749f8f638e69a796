//! Why committees are refused, so that a caller can say what is wrong with its arguments.

ghost use Rattle.std.specs.Prelude.{◌≡◌, ◌≢◌, ◌↔◌, length};
ghost use Rattle.simplex_border.specs.Keys.{AreKeys, IsLengthOfKeys};
ghost use Rattle.simplex_border.specs.Refusals.{AskedOfKeys, AskedOfVouched, IsFirstRefusal, refusal_code};
ghost use Rattle.simplex_border.specs.Signatures.{IsVouchedSize};
ghost use Rattle.simplex_border.specs.Sizes.{AreCommitteeSizes};

use crate::signatures::vouched_size;
use crate::{keys, sizes};
use std::alloc::Global;

/// Why arguments are no committees, in the order in which they are judged.
#[derive(Clone, Copy, Debug)]
pub enum Refusal {
    /// Signatures have another size than 48, 64 or 96 bytes.
    Signature,
    /// There is no size, so no committee.
    NoCommittee,
    /// There are not as many sizes as epochs, or without epochs more than one.
    Count,
    /// The epochs do not rise strictly.
    Epochs,
    /// A committee has no participant: its size is 0.
    EmptyCommittee,
    /// The keys have not 32 bytes for each participant.
    Length,
    /// A key stands twice in a committee.
    Repeated,
}

/// The number of a refusal that is not known, because an allocation failed.
pub const UNKNOWN: u32 = 8;

/// The number of a refusal, from 1 on in the order above; 0 if nothing is refused.
pub fn code(refusal: Option<Refusal>) -> u32
    ensures { result ≡ refusal_code refusal }
{
    match refusal {
        None => 0,
        Some(Refusal::Signature) => 1,
        Some(Refusal::NoCommittee) => 2,
        Some(Refusal::Count) => 3,
        Some(Refusal::Epochs) => 4,
        Some(Refusal::EmptyCommittee) => 5,
        Some(Refusal::Length) => 6,
        Some(Refusal::Repeated) => 7,
    }
}

/// Why there are no committees of these sizes whose signatures have so many bytes: the number of the first refusal, or 0 if
/// there are such committees.
pub fn refusal_vouched(signature: u32, epochs: &[u64], sizes: &[u32]) -> u32
    ensures first { IsFirstRefusal (AskedOfVouched signature epochs.now sizes.now) result }
    ensures accepted { result ≡ 0 ↔ IsVouchedSize signature × AreCommitteeSizes epochs.now sizes.now }
{
    if vouched_size(signature).is_none() {
        return code(Some(Refusal::Signature));
    }
    code(sizes::refusal(epochs, sizes))
}

/// Why there are no committees of these keys: the number of the first refusal, or 0 if there are such committees. [`UNKNOWN`]
/// if an allocation failed before it was known whether a key stands twice; all before that is accepted then.
pub fn refusal_plain(alloc: Global, epochs: &[u64], sizes: &[u32], keys: &[u8]) -> u32
    ensures first { result ≢ 8 → IsFirstRefusal (AskedOfKeys epochs.now sizes.now keys.now) result }
    ensures accepted { result ≡ 0 → AreKeys epochs.now sizes.now keys.now }
    ensures refused { result ≢ 0 → result ≢ 8 → ¬ AreKeys epochs.now sizes.now keys.now }
    ensures memory { result ≡ 8 → IsLengthOfKeys epochs.now sizes.now (length keys.now) }
{
    match keys::refusal(alloc, epochs, sizes, keys) {
        Ok(refusal) => code(refusal),
        Err(_) => UNKNOWN,
    }
}
