//! Groups of arguments, each an epoch and what names its committee.

ghost use Rattle.std.specs.Prelude.{◌≡◌, ◌≢◌, ◌↔◌, ◌≤◌, ◌<◌, ◌^◌, ◌⊎◌, ℕ, List, Ok, Err, All, IfOk, IfErr, map, length, take, drop, string_bytes, IsTrue};
ghost use Rattle.simplex_scheme.specs.Committees.{AreRising};
ghost use Rattle.simplex_cli.specs.Arguments.{AreGroups, BeginAsGroups, BeginsGroup, StandsBeforeGroup, epoch_text};

use crate::naming::Named;
use crate::numbers::parse_number;
use crate::status::Failure;
use simplex_base::positions::Epoch;
use std::alloc::{AllocError, Global};

/// Whether a text begins a group.
fn is_group(text: &str) -> bool
    ensures { IsTrue result ↔ BeginsGroup text.now }
{
    text.starts_with('@')
}

/// How many texts stand before the first that begins a group.
pub fn count_keys(texts: &[String]) -> usize
    ensures within { result ≤ length texts.now }
    ensures keys { All (λ text. ¬ BeginsGroup text) (take result (map string_bytes texts.now)) }
    ensures group { StandsBeforeGroup (drop result (map string_bytes texts.now)) }
{
    'texts: for i in 0..texts.len() {
        if is_group(texts[i].as_str()) {
            return i;
        }
    }
    texts.len()
}

/// The epoch whose group a text begins: `@` and decimal digits, without sign or leading zeros.
fn parse_epoch(text: &str) -> Result<Epoch, Failure>
    ensures epoch { IfOk result (λ epoch. text.now ≡ epoch_text epoch) }
    ensures usage { IfErr result (λ e. (epoch : ℕ) → epoch < 2 ^ 64 →
        text.now ≢ epoch_text epoch) }
    ensures failure { IfErr result (λ e. e ≡ Failure.Usage) }
{
    let Some(digits) = text.strip_prefix('@') else {
        return Err(Failure::Usage);
    };
    let epoch = parse_number(digits)?;
    Ok(Epoch::new(epoch))
}

/// Whether an epoch is above all epochs so far, which rise.
fn is_above<S>(pairs: &[(Epoch, S)], epoch: Epoch) -> bool
    requires { AreRising pairs.now }
    ensures { IsTrue result ↔ All (λ pair. pair.0 < epoch) pairs.now }
{
    match pairs.last() {
        Some(last) => last.0 < epoch,
        None => true,
    }
}

/// The epochs and committees that groups of texts name. The texts are checked from left to right: `Failure::Usage` where they
/// are not groups of an epoch and what names a committee, or the epochs do not rise strictly; `Failure::OutOfMemory` where an
/// allocation failed before that was found.
pub fn parse_groups<S: Named>(
    alloc: Global,
    common: &S::Common,
    texts: &[String],
) -> Result<Vec<(Epoch, S)>, Failure>
    ensures groups { IfOk result (λ pairs.
        AreGroups (S.naming common.now) (map string_bytes texts.now) pairs.items) }
    ensures rising { IfOk result (λ pairs. AreRising pairs.items) }
    ensures usage { result ≡ Err Failure.Usage → (pairs : List (ℕ × S)) →
        AreGroups (S.naming common.now) (map string_bytes texts.now) pairs → ¬ AreRising pairs }
    ensures memory { result ≡ Err Failure.OutOfMemory →
        BeginAsGroups (S.naming common.now) (map string_bytes texts.now) }
    ensures failure { IfErr result (λ e. (e ≡ Failure.Usage) ⊎ (e ≡ Failure.OutOfMemory)) }
{
    let mut pairs = Vec::new(alloc);
    let mut rest: &[String] = texts;
    'groups: while let Some((first, behind)) = rest.split_first() {
        let epoch = parse_epoch(first.as_str())?;
        if !is_above(pairs.as_slice(), epoch) {
            return Err(Failure::Usage);
        }
        let (own, after) = behind.split_at(count_keys(behind));
        let committee = S::parse(alloc, common, own)?;
        pairs.push((epoch, committee)).map_err(AllocError::from)?;
        rest = after;
    }
    Ok(pairs)
}
