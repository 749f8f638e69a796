//! What the arguments of `audit_split` begin with.

ghost use Rattle.std.specs.Prelude.{◌≡◌, ◌≢◌, ◌≤◌, ◌⊎◌, ◌^◌, IfOk, IfErr, List, Option, ℕ, decimal, drop, length, map, string_bytes};
ghost use Rattle.std.specs.Int.NonZero.{non_zero_u32_get};
ghost use Rattle.simplex_cli.specs.declared.verdicts.SignatureSize as sizes;
ghost use Rattle.simplex_splitting.specs.Options.{AreBehindHead, AreBehindOptions, AreOfCut, bytes_signed};
ghost use Rattle.simplex_splitting.specs.declared.options.Division as divisions;
ghost use Rattle.simplex_splitting.specs.declared.options.Options as declared;

use simplex_cli::numbers::parse_number;
use simplex_cli::options::parse_option;
use simplex_cli::status::Failure;
use simplex_cli::verdicts::SignatureSize;
use std::num::NonZeroU32;

/// How many bytes a signature has, unless the arguments say so.
const PLAIN: u64 = 32;

/// How many participants a committee has at most.
const PARTICIPANTS: u32 = u32::MAX;

/// How many classes there are at most.
const CLASSES: u32 = 65536;

/// Into what an input is cut.
#[derive(Clone, Copy)]
pub struct Division<'a> {
    /// The number of participants of the greatest committee of the whole audit.
    pub bound: NonZeroU32,
    /// How many classes there are.
    pub classes: NonZeroU32,
    /// What the names of the parts begin with.
    pub prefix: &'a str,
}

/// What the arguments of `audit_split` say in front of the files.
#[derive(Clone, Copy)]
pub struct Options<'a> {
    /// How many bytes signatures have in front of a verdict. `None` for those of plain keys: 32, without a verdict.
    pub signature: Option<SignatureSize>,
    /// What the mix of the classes begins with.
    pub seed: u64,
    /// Into what inputs are cut.
    pub division: Division<'a>,
}

/// The signatures of so many bytes.
fn parse_signature(bytes: u64) -> Result<Option<SignatureSize>, Failure>
    ensures size { IfOk result (λ size. bytes ≡ bytes_signed size) }
    ensures usage { IfErr result (λ e. (size : Option sizes.SignatureSize) → bytes ≢ bytes_signed size) }
    ensures failure { IfErr result (λ e. e ≡ Failure.Usage) }
{
    match bytes {
        PLAIN => Ok(None),
        48 => Ok(Some(SignatureSize::Bytes48)),
        64 => Ok(Some(SignatureSize::Bytes64)),
        96 => Ok(Some(SignatureSize::Bytes96)),
        _ => Err(Failure::Usage),
    }
}

/// The signatures and the seed that the arguments begin with, and how many arguments these are. Without an option signatures
/// are those of plain keys, and the seed is 0.
fn parse_head(arguments: &[String]) -> Result<(Option<SignatureSize>, u64, usize), Failure>
    ensures head { IfOk result (λ (signature, seed, count). AreBehindHead
        (map string_bytes arguments.now) signature seed (drop count (map string_bytes arguments.now))) }
    ensures within { IfOk result (λ (_, _, count). count ≤ length arguments.now) }
    ensures usage { IfErr result (λ e. (signature : Option sizes.SignatureSize) (seed : ℕ)
        (behind : List (List ℕ)) →
        ¬ AreBehindHead (map string_bytes arguments.now) signature seed behind) }
    ensures failure { IfErr result (λ e. e ≡ Failure.Usage) }
{
    let (bytes, first) = parse_option(arguments, "--signature", PLAIN)?;
    let signature = parse_signature(bytes)?;
    let (seed, second) = parse_option(&arguments[first..], "--seed", 0)?;
    Ok((signature, seed, first + second))
}

/// The number that a text is, in decimal without leading zeros: at least 1, and so many at most.
fn parse_within(text: &str, most: u32) -> Result<NonZeroU32, Failure>
    ensures number { IfOk result (λ number. text.now ≡ decimal (non_zero_u32_get number)) }
    ensures within { IfOk result (λ number. non_zero_u32_get number ≤ most) }
    ensures usage { IfErr result (λ e. (number : ℕ) → 1 ≤ number → number ≤ most →
        text.now ≢ decimal number) }
    ensures failure { IfErr result (λ e. e ≡ Failure.Usage) }
{
    let number = parse_number(text)?;
    if number > u64::from(most) {
        return Err(Failure::Usage);
    }
    match NonZeroU32::new(number as u32) {
        Some(number) => Ok(number),
        None => Err(Failure::Usage),
    }
}

/// What words say into what inputs are cut: a bound, a number of classes, a prefix, and at least one file behind them.
fn parse_division(words: &[String]) -> Result<Division<'_>, Failure>
    ensures division { IfOk result (λ division. AreOfCut (map string_bytes words.now) division
        (drop 3 (map string_bytes words.now))) }
    ensures within { IfOk result (λ _. 3 ≤ length words.now) }
    ensures usage { IfErr result (λ e. (division : divisions.Division) (files : List (List ℕ)) →
        ¬ AreOfCut (map string_bytes words.now) division files) }
    ensures failure { IfErr result (λ e. e ≡ Failure.Usage) }
{
    if words.len() < 4 {
        return Err(Failure::Usage);
    }
    let bound = parse_within(words[0].as_str(), PARTICIPANTS)?;
    let classes = parse_within(words[1].as_str(), CLASSES)?;
    let prefix = words[2].as_str();
    Ok(Division {
        bound,
        classes,
        prefix,
    })
}

/// What the arguments say in front of the files, and how many arguments these are. At least one file stands behind them.
pub fn parse_options(arguments: &[String]) -> Result<(Options<'_>, usize), Failure>
    ensures options { IfOk result (λ (options, count). AreBehindOptions
        (map string_bytes arguments.now) options (drop count (map string_bytes arguments.now))) }
    ensures within { IfOk result (λ (_, count). count ≤ length arguments.now) }
    ensures usage { IfErr result (λ e. (options : declared.Options) (files : List (List ℕ)) →
        ¬ AreBehindOptions (map string_bytes arguments.now) options files) }
    ensures failure { IfErr result (λ e. e ≡ Failure.Usage) }
{
    let (signature, seed, count) = parse_head(arguments)?;
    let division = parse_division(&arguments[count..])?;
    let options = Options {
        signature,
        seed,
        division,
    };
    Ok((options, count + 3))
}
