//! The keys of a committee.

ghost use Rattle.std.specs.Prelude.{◌≡◌, ◌↔◌, ◌==◌, List, length, IsPermutation, IsOk, IsTrue, IfOk, IfSome, IfNone, IsSomeAnd, All, slice_get, option_copied, false, true};
ghost use Rattle.std.specs.Cmp.{IsTotalOrder};
ghost use Rattle.std.specs.List.{IsDistinct};
ghost use Rattle.std.specs.Ordering.{eq_by_cmp};
ghost use Rattle.std.specs.declared.cmp.Ordering.{Ordering};

use std::cmp::Ordering;
use std::marker::Model;
use thiserror::Error;

/// Why keys are no set.
#[derive(Clone, Copy, Debug, PartialEq, Eq, Error)]
pub enum SetError {
    /// Two of the keys are equal.
    #[error("a key is repeated")]
    Repeated,
}

/// A type with a total order, as every type has that is `Ord`.
pub trait Ordered {
    /// How two values compare.
    ghost order: { Self → Self → Ordering };

    /// How two values compare.
    fn compare(&self, other: &Self) -> Ordering
        ensures { result ≡ order self.now other.now };

    /// The order is total.
    ghost total: { IsTotalOrder order };
}

impl<T: Ord> Ordered for T {
    ghost order = { T.cmp };

    fn compare(&self, other: &T) -> Ordering {
        self.cmp(other)
    }

    ghost total = { T.total };
}

/// Distinct keys in ascending order. A participant's number is the place of its key.
#[derive(Drop)]
pub struct Set<K: Ordered> {
    keys: Vec<K>,
}

impl<K: Ordered> Model for Set<K> {
    ghost use Rattle.std.specs.Prelude.{List};

    ghost Value = { List K };

    ghost use Rattle.std.specs.List.Sorted.{IsStrictlySortedBy};

    ghost view = { λ set. set.keys.items };

    ghost invariant = { λ set. IsStrictlySortedBy K.order set.keys.items };
}

impl<K: Ord> Set<K> {
    ghost use Rattle.std.specs.List.Sorted.{IsStrictlySortedBy};

    /// The set of these keys, sorted in place without an allocation. `Repeated` exactly where two of them are equal.
    pub fn try_from_vec(mut keys: Vec<K>) -> Result<Set<K>, SetError>
    where
        K: Drop,
        ensures same { IfOk result (λ set. IsPermutation keys.items set) }
        ensures ascending { IfOk result (λ set. IsStrictlySortedBy K.cmp set) }
        ensures distinct { IsOk result ↔ IsDistinct K.eq keys.items }
    {
        let given = keys.len();
        keys.sort_unstable();
        keys.dedup();
        if keys.len() < given {
            return Err(SetError::Repeated);
        }
        Ok(Set { keys })
    }

    /// Whether each key is less than those after it: the condition of [`ascending`](Set::ascending).
    pub fn are_ascending(keys: &[K]) -> bool
        ensures { IsTrue result ↔ IsStrictlySortedBy K.cmp keys.now }
    {
        keys.is_sorted_by(|first, second| first.cmp(second).is_lt())
    }

    /// The set of these keys, which ascend already.
    pub fn ascending(keys: Vec<K>) -> Set<K>
        requires { IsStrictlySortedBy K.cmp keys.items }
        ensures { result ≡ keys.items }
    {
        Set { keys }
    }
}

impl<K: Ordered> Set<K> {
    /// The number of keys.
    pub fn len(&self) -> usize
        ensures { result ≡ length self.now }
    {
        self.keys.len()
    }

    /// Whether there is no key.
    pub fn is_empty(&self) -> bool
        ensures { result ≡ (length self.now == 0) }
    {
        self.keys.is_empty()
    }

    /// The key at a place, if there is one.
    pub fn get(&self, place: usize) -> Option<&K>
        ensures { option_copied result ≡ slice_get self.now place }
    {
        self.keys.get(place)
    }

    /// The place of a key, if one of the set compares equal to it.
    pub fn position(&self, key: &K) -> Option<usize>
        ensures found { IfSome result (λ place.
            IsSomeAnd (slice_get self.now place) (λ one. eq_by_cmp K.order one key.now ≡ true)) }
        ensures none { IfNone result (All (λ one. eq_by_cmp K.order one key.now ≡ false) self.now) }
    {
        self.keys.binary_search_by(|one| one.compare(key)).ok()
    }
}
