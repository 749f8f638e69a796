//! The floor that arguments begin with.

ghost use Rattle.std.specs.Prelude.{◌≡◌, ◌≤◌, IfOk, IfErr, List, ℕ, drop, length, map, string_bytes};
ghost use Rattle.simplex_base.specs.Positions as positions;
ghost use Rattle.simplex_cli.specs.Compacting.{AreFromFloor};

use crate::numbers::parse_number;
use crate::status::Failure;
use simplex_base::positions::{Epoch, Round, View};

/// The floor that arguments begin with, as `--floor`, an epoch and a view, and how many arguments these are. Without the option
/// the floor is the first round. Numbers are decimal digits, without sign or leading zeros.
pub fn parse_floor(arguments: &[String]) -> Result<(Round, usize), Failure>
    ensures floor { IfOk result (λ (floor, count). AreFromFloor (map string_bytes arguments.now)
        floor (drop count (map string_bytes arguments.now))) }
    ensures within { IfOk result (λ (_, count). count ≤ length arguments.now) }
    ensures usage { IfErr result (λ e. (floor : positions.Round) (behind : List (List ℕ)) →
        ¬ AreFromFloor (map string_bytes arguments.now) floor behind) }
    ensures failure { IfErr result (λ e. e ≡ Failure.Usage) }
{
    let lowest = Round::new(Epoch::new(0), View::zero());
    let Some((first, rest)) = arguments.split_first() else {
        return Ok((lowest, 0));
    };
    if first.as_str() != "--floor" {
        return Ok((lowest, 0));
    }
    let Some((epoch, rest)) = rest.split_first() else {
        return Err(Failure::Usage);
    };
    let Some((view, _)) = rest.split_first() else {
        return Err(Failure::Usage);
    };
    let epoch = parse_number(epoch.as_str())?;
    let view = parse_number(view.as_str())?;
    Ok((Round::new(Epoch::new(epoch), View::new(view)), 3))
}
