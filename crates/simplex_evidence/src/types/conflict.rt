//! How evidence of two votes is read: the one vote, the other, and then whether they contradict.

ghost use Rattle.std.specs.Prelude.{◌≡◌, ◌||◌, Bool, false, Err, None, Some, IsTrue, if◌then◌else◌};
ghost use Rattle.simplex_base.specs.Reading.{Refusal, Fails, Gives};
ghost use Rattle.simplex_base.specs.Format.{both_at, made_at, tested_at};

use simplex_base::codec::{Error, Read};
use std::alloc::Global;

/// Evidence of two votes that contradict.
pub trait Conflict: Sized {
    /// The first vote.
    type First: Read<Cfg = ()> + Drop;

    /// The second vote.
    type Second: Read<Cfg = ()> + Drop;

    /// The evidence of two votes.
    ghost made: { Self.First × Self.Second → Self };

    /// Whether its votes contradict.
    ghost holds: { Self → Bool };

    /// The refusal of two votes that do not contradict.
    ghost refusal: { Refusal };

    /// Whether two votes contradict.
    fn are_in_conflict(first: &Self::First, second: &Self::Second) -> bool
        ensures { result ≡ holds (made (first.now, second.now)) };

    /// The evidence of two votes that contradict.
    fn of_votes(first: Self::First, second: Self::Second) -> Self
        requires { IsTrue (holds (made (first, second))) }
        ensures { result ≡ made (first, second) };

    /// The error of two votes that do not contradict.
    fn refused() -> Error
        ensures { Fails {X = Self} false result (Err refusal) };
}

/// The evidence of two votes, if they contradict.
pub fn conflict_of<T: Conflict>(first: T::First, second: T::Second) -> Option<T>
    ensures { result ≡ (if T.holds (T.made (first, second)) then Some (T.made (first, second))
        else None) }
{
    if !T::are_in_conflict(&first, &second) {
        return None;
    }
    Some(T::of_votes(first, second))
}

/// Reads two votes, and moves the slice past both if they contradict. After an error the slice is as before.
pub fn read_conflict<T: Conflict>(alloc: Global, input: &mut &[u8]) -> Result<T, Error>
    ensures { Gives (T.First.takes_memory ||
        T.Second.takes_memory) result input.old.now input.new.now
        (tested_at T.holds T.refusal
        (made_at T.made (both_at (T.First.reading tt) (T.Second.reading tt))) input.old.now) }
{
    let mut rest: &[u8] = *input;
    let (first, second) = match <(T::First, T::Second)>::read_cfg(alloc, &mut rest, &()) {
        Ok(votes) => votes,
        Err(error) => return Err(error),
    };
    let Some(conflict) = conflict_of(first, second) else {
        return Err(T::refused());
    };
    *input = rest;
    Ok(conflict)
}
