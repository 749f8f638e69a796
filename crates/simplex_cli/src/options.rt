//! Options in front of arguments.

ghost use Rattle.std.specs.Prelude.{◌≡◌, ◌≤◌, IfOk, IfErr, List, ℕ, drop, length, map, string_bytes};
ghost use Rattle.simplex_cli.specs.Options.{AreBehindOption};

use crate::numbers::parse_number;
use crate::status::Failure;

/// The number behind an option, and how many arguments these are, or another number if the arguments do not begin with it.
pub fn parse_option(
    arguments: &[String],
    option: &str,
    otherwise: u64,
) -> Result<(u64, usize), Failure>
    ensures number { IfOk result (λ (number, count). AreBehindOption option.now otherwise
        (map string_bytes arguments.now) number (drop count (map string_bytes arguments.now))) }
    ensures within { IfOk result (λ (_, count). count ≤ length arguments.now) }
    ensures usage { IfErr result (λ e. (number : ℕ) (behind : List (List ℕ)) →
        ¬ AreBehindOption option.now otherwise (map string_bytes arguments.now) number behind) }
    ensures failure { IfErr result (λ e. e ≡ Failure.Usage) }
{
    let Some((first, rest)) = arguments.split_first() else {
        return Ok((otherwise, 0));
    };
    if first.as_str() != option {
        return Ok((otherwise, 0));
    }
    let Some((number, _)) = rest.split_first() else {
        return Err(Failure::Usage);
    };
    Ok((parse_number(number.as_str())?, 2))
}
