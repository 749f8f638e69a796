//! Which ranges of a stream an audit takes.

ghost use Rattle.std.specs.Prelude.{◌≤◌, ◌↔◌, IsTrue};
ghost use Rattle.simplex_shards.specs.Ranges.{AreWithin, end_of_range};

use simplex_shards::ranges::Range;

/// Whether a range is within a stream of so many bytes.
fn is_within(size: usize, range: &Range) -> bool
    ensures { IsTrue result ↔ end_of_range range.now ≤ size }
{
    range.place <= size && range.length <= size - range.place
}

/// Whether each range is within a stream of so many bytes, and together they have fewer than 2^64.
pub(crate) fn are_within(size: usize, ranges: &[Range]) -> bool
    ensures { IsTrue result ↔ AreWithin size ranges.now }
{
    let mut room = usize::MAX;
    'each: for range in ranges {
        if !is_within(size, range) || range.length > room {
            return false;
        }
        room -= range.length;
    }
    true
}
