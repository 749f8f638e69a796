//! Which committee judges the messages of an epoch.

ghost use Rattle.std.specs.Prelude.{◌≡◌, ◌≢◌, ◌<◌, ◌≤◌, ◌↔◌, ℕ, [], Some, Ok, Err, length, IfOk, IsTrue, All, max};
ghost use Rattle.std.specs.Option.{option_copied};
ghost use Rattle.simplex_scheme.specs.Committees.{Schedule, Every, Listed, committee_of, bound_of, greatest, AreRising};

use crate::scheme::CertificateScheme;
use simplex_base::positions::Epoch;
use std::marker::Model;

/// Why `Committees::try_from_vec` refuses a list.
#[derive(Clone, Copy, Debug, PartialEq, Eq, thiserror::Error)]
pub enum CommitteesError {
    /// No epoch is listed.
    #[error("no epoch has a committee")]
    Empty,
    /// The epochs do not rise strictly.
    #[error("the epochs do not rise strictly")]
    Unordered,
}

/// One committee for every epoch, or one for each listed epoch.
#[derive(Drop)]
enum Entries<S> {
    Every(S),
    Listed(Vec<(Epoch, S)>),
}

/// Which committee judges the messages of an epoch, if one does: one for every epoch, or one for each listed
/// epoch. No call allocates.
#[derive(Drop)]
pub struct Committees<S> {
    entries: Entries<S>,
}

impl<S> Model for Committees<S> {
    ghost use Rattle.simplex_scheme.specs.Committees.{Schedule, IsSchedule, schedule_of};

    ghost Value = { Schedule S };

    ghost view = { λ committees. schedule_of committees.entries };

    ghost invariant = { λ committees. IsSchedule (schedule_of committees.entries) };
}

impl<S> Committees<S> {
    /// One committee for every epoch.
    pub fn every(committee: S) -> Self
        ensures { result ≡ Every committee }
    {
        Committees {
            entries: Entries::Every(committee),
        }
    }

    /// One committee for each listed epoch, and none for any other. `Empty` where no epoch is listed, `Unordered`
    /// where the epochs do not rise strictly; a refused list is dropped.
    pub fn try_from_vec(pairs: Vec<(Epoch, S)>) -> Result<Self, CommitteesError>
    where
        S: Drop,
        ensures listed { IfOk result (λ committees. (committees ≡ Listed pairs.items) ×
            (pairs.items ≢ []) × AreRising pairs.items) }
        ensures empty { result ≡ Err CommitteesError.Empty ↔ (pairs.items ≡ []) }
        ensures unordered { result ≡ Err CommitteesError.Unordered ↔ (AreRising pairs.items → ⊥) }
    {
        if pairs.is_empty() {
            return Err(CommitteesError::Empty);
        }
        if !are_rising(&pairs) {
            return Err(CommitteesError::Unordered);
        }
        Ok(Committees {
            entries: Entries::Listed(pairs),
        })
    }

    /// The committee of an epoch, if it has one. It is found by binary search.
    pub fn get(&self, epoch: Epoch) -> Option<&S>
        ensures { option_copied result ≡ committee_of self.now epoch }
    {
        match &self.entries {
            Entries::Every(committee) => Some(committee),
            Entries::Listed(pairs) => listed_committee(pairs, epoch),
        }
    }
}

impl<S: CertificateScheme> Committees<S> {
    /// The bound under which certificates are read: the number of participants of the greatest committee. It calls
    /// `participants` once for each committee.
    pub fn bound(&self) -> u32
        ensures value { result ≡ bound_of S.keys self.now }
        // No committee is greater, and one is as great.
        ensures most { (epoch : ℕ) (committee : S) → committee_of self.now epoch ≡ Some committee →
            length (S.keys committee) ≤ result }
        // Each has a participant.
        ensures some { (epoch : ℕ) (committee : S) →
            committee_of self.now epoch ≡ Some committee → 1 ≤ length (S.keys committee) }
        ensures reached { (epoch : ℕ) × (committee : S) ×
            (committee_of self.now epoch ≡ Some committee) × (length (S.keys committee) ≡ result) }
    {
        match &self.entries {
            Entries::Every(committee) => committee.participants().len() as u32,
            Entries::Listed(pairs) => greatest(pairs),
        }
    }
}

/// Whether the epochs rise strictly.
fn are_rising<S>(pairs: &[(Epoch, S)]) -> bool
    ensures { IsTrue result ↔ AreRising pairs.now }
{
    'pairs: for i in 1..pairs.len() {
        if pairs[i].0 <= pairs[i - 1].0 {
            return false;
        }
    }
    true
}

/// The number of participants of the greatest committee.
fn greatest<S: CertificateScheme>(pairs: &[(Epoch, S)]) -> u32
    ensures value { result ≡ greatest S.keys pairs.now }
    // Each committee has a participant.
    ensures some { All (λ p. 1 ≤ length (S.keys p.1)) pairs.now }
{
    let mut most = 0;
    'pairs: for pair in pairs {
        most = most.max(pair.1.participants().len() as u32);
    }
    most
}

/// The committee that is listed for an epoch.
fn listed_committee<S>(pairs: &[(Epoch, S)], epoch: Epoch) -> Option<&S>
    requires { AreRising pairs.now }
    ensures { option_copied result ≡ committee_of (Listed pairs.now) epoch }
{
    match pairs.binary_search_by_key(&epoch, |pair| pair.0) {
        Ok(place) => Some(&pairs[place].1),
        Err(_) => None,
    }
}
