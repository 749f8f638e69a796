//! Room for more votes.

ghost use Rattle.std.specs.Prelude.{◌≡◌, ◌<◌, ◌≤◌, OnOk};
ghost use Rattle.std.specs.Vec.{vec_len, vec_capacity};

use std::alloc::AllocError;

/// For how many more items to reserve room where there is room for `len`: first for one, then for twice as many again but at
/// least 3, and for no more than the next multiple of the participants, which is how many votes of a kind a round mostly has.
pub fn more_room(len: usize, participants: usize) -> usize
    ensures { 1 ≤ result }
{
    if len == 0 {
        return 1;
    }
    let more = len.saturating_mul(2).max(3);
    if len < participants {
        return more.min(participants - len);
    }
    if participants == 0 {
        return more;
    }
    more.min(participants - len % participants)
}

/// Makes room for one more item at least, if there is none. The items stay. `AllocError` only where an allocation failed.
pub fn make_room<T>(items: &mut Vec<T>, participants: usize) -> Result<(), AllocError>
    ensures items { items.new.items ≡ items.old.items }
    ensures len { vec_len items.new ≡ vec_len items.old }
    ensures room { OnOk result (vec_len items.new < vec_capacity items.new) }
{
    if items.len() < items.capacity() {
        return Ok(());
    }
    let more = more_room(items.len(), participants);
    items.try_reserve_exact(more)
}
