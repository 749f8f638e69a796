//! The map of first votes: who has an item, clears, many inserts, and failed allocations.

use crate::without_memory::is_out;
use simplex_base::positions::Participant;
use simplex_evidence::types::AttributableMap;
use simplex_votes::types::Attributable;
use std::process::Abort;
use std::test::Fail;

/// An item of this signer.
#[derive(Clone, Copy, PartialEq, Eq)]
struct Ballot {
    signer: u32,
}

impl Ballot {
    fn of(signer: u32) -> Self {
        Ballot { signer }
    }
}

impl Attributable for Ballot {
    ghost signer_of = { λ ballot. ballot.signer };

    fn signer(&self) -> Participant {
        Participant::new(self.signer)
    }
}

/// Which participants have an item, and a clear: no test vector asks for these.
#[test]
fn ample_clear(rt: HostRuntime) -> Result<(), Fail> {
    let mut map = AttributableMap::new(rt.alloc(), 5);
    for signer in [4, 0, 2] {
        assert!(rt; map.insert(Ballot::of(signer))?, "of {signer}");
    }
    assert!(rt; has(&map, 2) && map.get(Participant::new(1)).is_none());
    map.clear();
    assert!(rt; map.insert(Ballot::of(3))? && map.insert(Ballot::of(1))?);
    assert!(rt; map.len() == 2);
    map.clear();
    assert!(rt; map.is_empty() && map.iter().next().is_none());
    assert!(rt; map.insert(Ballot::of(2))?);
    assert!(rt; map.len() == 1);
    Ok(())
}

/// Whether the participant has an item, and that is its own.
fn has(map: &AttributableMap<Ballot>, signer: u32) -> bool {
    match map.get(Participant::new(signer)) {
        Some(ballot) => *ballot == Ballot::of(signer),
        None => false,
    }
}

/// A million inserts, of the last participant first.
#[test]
fn ample_million_inserts(rt: HostRuntime) -> Result<(), Fail> {
    let mut map = AttributableMap::new(rt.alloc(), 1000);
    for number in 0..1_000_000 {
        map.insert(Ballot::of(999 - number % 1000))?;
    }
    assert!(rt; map.len() == 1000);
    Ok(())
}

/// Fills a map twice, with a clear between. Returns whether an allocation failed; then the map was as before, and
/// took the item when it came again.
fn is_refused(rt: &(impl Abort + AllocGlobal)) -> bool {
    let mut map = AttributableMap::new(rt.alloc(), 5);
    let mut refused = false;
    for _ in 0..2 {
        assert!(rt; matches!(map.insert(Ballot::of(5)), Ok(false)));
        if map.insert(Ballot::of(3)).is_err() {
            refused = true;
            assert!(rt; map.is_empty());
            assert!(rt; map.get(Participant::new(3)).is_none());
            assert!(rt; matches!(map.insert(Ballot::of(3)), Ok(true)));
        }
        assert!(rt; matches!(map.insert(Ballot::of(3)), Ok(false)));
        assert!(rt; matches!(map.insert(Ballot::of(1)), Ok(true)));
        assert!(rt; map.len() == 2);
        map.clear();
    }
    refused
}

/// The first insert allocates for all participants, and so does the first after a clear. No other call allocates: one more
/// allocation, or one less, is refused.
#[test]
fn ample_2_allocations(rt: HostRuntime) {
    assert!(rt; !is_refused(&rt));
}

/// Where the allocation fails the map is as before.
#[test]
fn refused(rt: HostRuntime) {
    let _ = is_refused(&rt);
}

/// An untouched map allocates nothing.
#[test]
fn without_memory_untouched(rt: HostRuntime) {
    let _ = is_out(rt.alloc());
    let mut untouched = AttributableMap::new(rt.alloc(), 5);
    assert!(rt; untouched.get(Participant::new(3)).is_none());
    assert!(rt; untouched.is_empty() && untouched.iter().next().is_none());
    assert!(rt; matches!(untouched.insert(Ballot::of(5)), Ok(false)));
}

/// A map with an item allocates nothing. A clear frees the items' memory, so that the next insert allocates.
#[test]
fn without_memory(rt: HostRuntime) -> Result<(), Fail> {
    let mut map = AttributableMap::new(rt.alloc(), 5);
    assert!(rt; map.insert(Ballot::of(3))?);
    let is_out = is_out(rt.alloc());
    for (signer, is_new) in [(4, true), (3, false), (0, true), (5, false)] {
        assert!(rt; matches!(map.insert(Ballot::of(signer)), Ok(answer) if answer == is_new));
    }
    assert!(rt; has(&map, 4) && map.get(Participant::new(1)).is_none());
    assert!(rt; map.len() == 3 && map.iter().count() == 3);
    map.clear();
    assert!(rt; map.is_empty());
    assert!(rt; map.insert(Ballot::of(3)).is_err() == is_out);
    Ok(())
}

/// No memory has room for this many participants.
#[test]
fn too_many_participants(rt: HostRuntime) {
    let mut map = AttributableMap::new(rt.alloc(), usize::MAX);
    assert!(rt; map.insert(Ballot::of(3)).is_err());
    assert!(rt; map.is_empty());
    assert!(rt; map.insert(Ballot::of(3)).is_err());
}
