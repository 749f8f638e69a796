//! What is kept by round is given up below a floor. Of what stays only the first is looked at.

ghost use Rattle.std.specs.Prelude.{◌≡◌, ◌∷◌, false, filter, IfNone, IfSome};
ghost use Rattle.simplex_rules.specs.Independence.{is_from};

use crate::evidence::Accusation;
use crate::judging::is_at_least;
use simplex_base::positions::Round;
use std::collections::{BTreeMap, BTreeSet};

/// Gives up what a map has of rounds below a floor.
pub fn prune_rounds<V>(rounds: &mut BTreeMap<Round, V>, floor: Round)
where
    V: Drop,
    ensures { rounds.new.entries ≡ filter (λ entry. is_from floor entry.0) rounds.old.entries }
{
    'below: while pop_below(rounds, floor).is_some() {}
}

/// Takes what a map has of its first round, if that is below a floor.
pub fn pop_below<V>(rounds: &mut BTreeMap<Round, V>, floor: Round) -> Option<(Round, V)>
    ensures taken { IfSome result (λ entry. rounds.old.entries ≡ entry ∷ rounds.new.entries) }
    ensures below { IfSome result (λ entry. is_from floor entry.0 ≡ false) }
    ensures none { IfNone result (rounds.new.entries ≡ rounds.old.entries) }
    ensures all_stay { IfNone result
        (filter (λ entry. is_from floor entry.0) rounds.old.entries ≡ rounds.old.entries) }
{
    let (round, _) = rounds.first_key_value()?;
    if is_at_least(*round, floor) {
        return None;
    }
    rounds.pop_first()
}

/// Gives up the accusations of rounds below a floor.
pub fn prune_accusations(accusations: &mut BTreeSet<Accusation>, floor: Round)
    ensures { accusations.new.keys ≡
        filter (λ accusation. is_from floor accusation.accused.round) accusations.old.keys }
{
    'below: while let Some(accusation) = accusations.first() {
        let stays = is_at_least(accusation.accused.round, floor);
        if stays {
            return;
        }
        accusations.pop_first();
    }
}
