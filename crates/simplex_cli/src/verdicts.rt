//! What arguments say of signatures that the caller verified: how many bytes they have, and how many participants committees
//! have.

ghost use Rattle.std.specs.Prelude.{◌≡◌, ◌≢◌, ◌⊎◌, ◌≤◌, ◌<◌, ◌^◌, ℕ, List, Option, Err, IfOk, IfErr, decimal, drop, length, map, string_bytes};
ghost use Rattle.simplex_cli.specs.Arguments.{BeginAsCommittees, IsCommitteeSize, NameNone};
ghost use Rattle.simplex_cli.specs.Verdicts.{AreBehindVerdicts, AreCount, AreCountsGiven, AreNoCountsGiven, by_count, size_text};
ghost use Rattle.simplex_cli.specs.declared.verdicts.SignatureSize as sizes;

use crate::arguments::parse_committees;
use crate::naming::Named;
use crate::numbers::parse_number;
use crate::status::Failure;
use simplex_audit::audit::Committees;
use simplex_base::codec::fixed_bytes::Role;
use simplex_schemes::plain::is_committee_size;
use simplex_schemes::vouched::Vouched;
use std::alloc::Global;

/// How many bytes a signature has, without its verdict.
#[derive(Clone, Copy)]
pub enum SignatureSize {
    /// 48, as of BLS12-381 in G1.
    Bytes48,
    /// 64, as of Ed25519.
    Bytes64,
    /// 96, as of BLS12-381 in G2.
    Bytes96,
}

/// The size that a text is, in decimal.
fn parse_size(text: &str) -> Result<SignatureSize, Failure>
    ensures size { IfOk result (λ size. text.now ≡ size_text size) }
    ensures usage { IfErr result (λ e. (size : sizes.SignatureSize) → text.now ≢ size_text size) }
    ensures failure { IfErr result (λ e. e ≡ Failure.Usage) }
{
    match text {
        "48" => Ok(SignatureSize::Bytes48),
        "64" => Ok(SignatureSize::Bytes64),
        "96" => Ok(SignatureSize::Bytes96),
        _ => Err(Failure::Usage),
    }
}

/// How many bytes the signatures have, which arguments begin with as `--verdicts` and 48, 64 or 96, and how many arguments
/// these are. Without the option it is `None`, and none.
pub fn parse_verdicts(arguments: &[String]) -> Result<(Option<SignatureSize>, usize), Failure>
    ensures size { IfOk result (λ (size, count). AreBehindVerdicts (map string_bytes arguments.now)
        size (drop count (map string_bytes arguments.now))) }
    ensures within { IfOk result (λ (_, count). count ≤ length arguments.now) }
    ensures usage { IfErr result (λ e. (size : Option sizes.SignatureSize) (behind : List (List ℕ)) →
        ¬ AreBehindVerdicts (map string_bytes arguments.now) size behind) }
    ensures failure { IfErr result (λ e. e ≡ Failure.Usage) }
{
    let Some((first, rest)) = arguments.split_first() else {
        return Ok((None, 0));
    };
    if first.as_str() != "--verdicts" {
        return Ok((None, 0));
    }
    let Some((size, _)) = rest.split_first() else {
        return Err(Failure::Usage);
    };
    let size = parse_size(size.as_str())?;
    Ok((Some(size), 2))
}

/// The number of participants that a text is, in decimal without leading zeros: at least one, fewer than 2^32.
fn parse_count(text: &str) -> Result<u32, Failure>
    ensures count { IfOk result (λ count. text.now ≡ decimal count) }
    ensures some { IfOk result (λ count. 1 ≤ count) }
    ensures usage { IfErr result (λ e. (count : ℕ) → IsCommitteeSize count →
        text.now ≢ decimal count) }
    ensures failure { IfErr result (λ e. e ≡ Failure.Usage) }
{
    let number = parse_number(text)?;
    if !is_committee_size(number as usize) {
        return Err(Failure::Usage);
    }
    Ok(number as u32)
}

/// By how many participants it has.
impl<R: Role<N>, const N: usize> Named for Vouched<R, N> {
    ghost use Rattle.simplex_cli.specs.VerdictLaws.{naming_by_count};

    type Common = ();

    ghost naming = { λ _. by_count };

    ghost is_naming = { λ _. naming_by_count };

    fn parse(alloc: Global, _common: &(), texts: &[String]) -> Result<Self, Failure> {
        let Some((text, [])) = texts.split_first() else {
            return Err(Failure::Usage);
        };
        let count = parse_count(text.as_str())?;
        let committee = Vouched::new(alloc, count)?;
        Ok(committee)
    }
}

/// The committees that texts name by their numbers of participants, one for every epoch, or in groups one for each of some
/// epochs. `None` if there are no texts. `Failure::Usage` where they are none of these, `Failure::OutOfMemory` where an
/// allocation failed before that was found.
pub(crate) fn parse_counts<R: Role<N>, const N: usize>(
    alloc: Global,
    texts: &[String],
) -> Result<Option<Committees<Vouched<R, N>>>, Failure>
    ensures given { IfOk result (AreCountsGiven (map string_bytes texts.now)) }
    ensures usage { result ≡ Err Failure.Usage → AreNoCountsGiven (map string_bytes texts.now) }
    ensures memory { result ≡ Err Failure.OutOfMemory →
        BeginAsCommittees by_count (map string_bytes texts.now) }
    ensures failure { IfErr result (λ e. (e ≡ Failure.Usage) ⊎ (e ≡ Failure.OutOfMemory)) }
{
    if texts.is_empty() {
        return Ok(None);
    }
    let committees = parse_committees::<Vouched<R, N>>(alloc, &(), texts)?;
    Ok(Some(committees))
}
