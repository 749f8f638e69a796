//! The order in which participants lead.

ghost use Rattle.std.specs.Prelude.{◌≡◌, ◌↔◌, ◌<◌, ◌^◌, List, length, slice_index, IsTrue};
ghost use Rattle.std.specs.List.{range_with_len};

use simplex_base::positions::Participant;
use std::alloc::AllocError;
use std::marker::Model;

/// An order of participants. That of their numbers is not stored, however it came about: it takes no memory.
#[derive(Drop)]
pub(crate) struct Order {
    participants: u32,
    /// The participants in their order, if it is not that of their numbers.
    shuffled: Option<Vec<Participant>>,
}

impl Model for Order {
    ghost use Rattle.std.specs.Prelude.{◌≡◌, ℕ, List, length, option_map};
    ghost use Rattle.std.specs.List.{range_with_len};
    ghost use Rattle.std.specs.Option.{ForSome};
    ghost use Rattle.simplex_lead.specs.Rotation.{entries};

    ghost Value = { List ℕ };

    ghost view = { λ order.
        entries order.participants (option_map (λ shuffled. shuffled.items) order.shuffled) };

    ghost invariant = { λ order. ForSome order.shuffled (λ shuffled.
        (length shuffled.items ≡ order.participants) ×
        ¬ (shuffled.items ≡ range_with_len 0 order.participants)) };
}

impl Order {
    /// The participants below a number, in the order of their numbers.
    pub(crate) fn ascending(participants: u32) -> Self
        ensures { result ≡ range_with_len 0 participants }
    {
        Order {
            participants,
            shuffled: None,
        }
    }

    /// The order that these have.
    pub(crate) fn of(participants: Vec<Participant>) -> Self
        requires { length participants.items < 2 ^ 32 }
        ensures { result ≡ participants.items }
    {
        let count = participants.len() as u32;
        if are_ascending(&participants) {
            return Self::ascending(count);
        }
        Order {
            participants: count,
            shuffled: Some(participants),
        }
    }

    /// The number of participants.
    pub(crate) fn len(&self) -> u32
        ensures { result ≡ length self.now }
    {
        self.participants
    }

    /// The participant at this place.
    pub(crate) fn get(&self, place: u32) -> Participant
        requires { place < length self.now }
        ensures { result ≡ slice_index self.now place }
    {
        match &self.shuffled {
            Some(shuffled) => shuffled[place as usize],
            None => Participant::new(place),
        }
    }
}

/// Whether each participant stands at the place of its number.
fn are_ascending(participants: &[Participant]) -> bool
    ensures { IsTrue result ↔ participants.now ≡ range_with_len 0 (length participants.now) }
{
    'participants: for place in 0..participants.len() {
        if participants[place].get() as usize != place {
            return false;
        }
    }
    true
}

impl Clone for Order {
    ghost is_clone = { λ order copy. copy ≡ order };

    // The order of the numbers is cloned without an allocation.
    ghost is_infallible = { λ order. order ≡ range_with_len 0 (length order) };

    fn clone(&self) -> Result<Self, AllocError> {
        Ok(Order {
            participants: self.participants,
            shuffled: self.shuffled.clone()?,
        })
    }
}
