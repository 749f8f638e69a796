//! A map from rounds that remembers where the value of the last round lies.

ghost use Rattle.std.specs.Prelude.{◌≡◌, [], None, Some, OnErr, OnOk, filter, length, option_copied};
ghost use Rattle.std.specs.BTreeMap as tree;
ghost use Rattle.std.specs.Borrow.{sem};
ghost use Rattle.std.specs.Iterator.{at_most};
ghost use Rattle.std.specs.Map.Iter.{TakesFirst, deref_pair};
ghost use Rattle.std.specs.Option.{option_copied_mut};
ghost use Rattle.simplex_rules.specs.Accusation.{round_cmp};
ghost use Rattle.simplex_rules.specs.Independence.{is_from};
ghost use Rattle.simplex_detector.specs.RoundMap.{get, IsOrdered, IsPlaceOf, Updates};
ghost use Rattle.simplex_detector.specs.RoundLends.{lends_value};

use simplex_base::positions::Round;
use simplex_rules::pruning::pop_below;
use slab::Slab;
use std::alloc::{AllocError, Global};
use std::collections::{BTreeMap, btree_map};
use std::marker::Model;

/// A map from rounds to values. Each value lies at a place of its own and stays there. The place of the round that was last
/// sought for writing or inserted is remembered, so that it is found with no search.
#[derive(Drop)]
pub struct RoundMap<V> {
    places: BTreeMap<Round, usize>,
    values: Slab<V>,
    last: Option<(Round, usize)>,
}

impl<V> Model for RoundMap<V> {
    ghost use Rattle.std.specs.Prelude.{List};
    ghost use Rattle.slab.specs.Slab as slab;
    ghost use Rattle.simplex_base.specs.Positions as positions;
    ghost use Rattle.simplex_detector.specs.RoundMap.{placed, IsSound};

    ghost Value = { List (positions.Round × V) };

    ghost view = { λ map. placed (slab.get map.values) map.places.entries };

    ghost invariant = { λ map. IsSound map.places map.values map.last };
}

impl<V> RoundMap<V> {
    /// No rounds yet. It allocates nothing.
    pub fn new(alloc: Global) -> Self
        ensures { result ≡ [] }
    {
        RoundMap {
            places: BTreeMap::new(alloc),
            values: Slab::new(alloc),
            last: None,
        }
    }

    /// The value of a round, if it has one.
    pub fn get(&self, round: Round) -> Option<&V>
        ensures value { option_copied result ≡ get round_cmp self.now round }
    {
        let place = place_of(&self.places, &self.last, round)?;
        self.values.get(place)
    }

    /// The value of a round for writing, if it has one. The round is remembered as the last.
    pub fn get_mut(&mut self, round: Round) -> Option<&mut V>
        ensures* writes_back { sem 𝓛 (lends_value V.row self.entry round result) }
        ensures value { option_copied_mut result ≡ get round_cmp self.old round }
    {
        let place = place_of(&self.places, &self.last, round)?;
        self.last = Some((round, place));
        self.values.get_mut(place)
    }

    /// Inserts a round that has no value, and remembers it as the last. `AllocError` only where an allocation failed; the map
    /// is then as before.
    pub fn insert(&mut self, round: Round, value: V) -> Result<(), AllocError>
    where
        V: Drop,
        requires { get round_cmp self.old round ≡ None }
        ensures inserted { OnOk result (Updates self.old self.new round (Some value)) }
        ensures refused { OnErr result (self.new ≡ self.old) }
    {
        self.values.reserve(1)?;
        let place = self.values.vacant_key();
        self.places.insert(round, place)?;
        self.values.insert_reserved(value);
        self.last = Some((round, place));
        Ok(())
    }

    /// Gives up the rounds below a floor, and their values. If it gives up any, no round is remembered as the last.
    pub fn prune(&mut self, floor: Round)
    where
        V: Drop,
        ensures { self.new ≡ filter (λ entry. is_from floor entry.0) self.old }
    {
        'below: while let Some((_, place)) = pop_below(&mut self.places, floor) {
            self.last = None;
            self.values.remove(place);
        }
    }
}

/// The place of a round, if it has one. The last round is tried before the places are searched.
fn place_of(
    places: &BTreeMap<Round, usize>,
    last: &Option<(Round, usize)>,
    round: Round,
) -> Option<usize>
    requires { IsPlaceOf places.now last.now }
    ensures { result ≡ tree.get round_cmp places.now round }
{
    if let Some((last, place)) = last {
        if *last == round {
            return Some(*place);
        }
    }
    places.get(&round).copied()
}

/// The rounds of a map that are left, in order, each with its value.
#[derive(Drop)]
pub struct Rounds<'a, V> {
    places: btree_map::Iter<'a, Round, usize>,
    values: &'a Slab<V>,
}

impl<'a, V> Model for Rounds<'a, V> {
    ghost use Rattle.std.specs.Prelude.{List};
    ghost use Rattle.slab.specs.Slab as slab;
    ghost use Rattle.simplex_base.specs.Positions as positions;
    ghost use Rattle.simplex_detector.specs.RoundMap.{placed, ArePlaced};

    ghost Value = { List (positions.Round × V) };

    ghost view = { λ rounds. placed (slab.get rounds.values.now) rounds.places };

    ghost invariant = { λ rounds. ArePlaced (slab.get rounds.values.now) rounds.places };
}

impl<'a, V> Iterator for Rounds<'a, V> {
    type Item = (&'a Round, &'a V);

    ghost next_gives = { TakesFirst deref_pair };

    ghost remaining = { λ rounds. at_most (length rounds) };

    fn next(&mut self) -> Option<(&'a Round, &'a V)> {
        let (round, place) = self.places.next()?;
        Some((round, &self.values[*place]))
    }
}

impl<'a, V> IntoIterator for &'a RoundMap<V> {
    type Item = (&'a Round, &'a V);

    type IntoIter = Rounds<'a, V>;

    ghost into_iter_gives = { λ map rounds. (rounds ≡ map.now) × IsOrdered round_cmp map.now };

    fn into_iter(self) -> Rounds<'a, V> {
        Rounds {
            places: self.places.iter(),
            values: &self.values,
        }
    }
}
