//! Lists of values of one type: their number, and then the values one after another.

ghost use Rattle.std.specs.Prelude.{◌≡◌, ◌++◌, ◌+◌, ◌-◌, ◌*◌, ◌<◌, ◌≤◌, ◌^◌, All, OnOk, OnErr, length, min};
ghost use Rattle.std.specs.List.{flat_map};
ghost use Rattle.simplex_base.specs.Varint.{number_32};

use crate::codec::parts::or_restore;
use crate::codec::varint::{size_u32, write_u32};
use crate::codec::{EncodeSize, Write};
use std::alloc::AllocError;

/// Appends values one after another. After an error the buffer is as before.
fn write_all<T: Write>(items: &[T], buf: &mut Vec<u8>) -> Result<(), AllocError>
    ensures ok { OnOk result (buf.new.items ≡ buf.old.items ++ flat_map T.encoding items.now) }
    ensures err { OnErr result (buf.new.items ≡ buf.old.items) }
{
    let start = buf.len();
    for item in items {
        let done = item.write(buf);
        or_restore(buf, start, done)?;
    }
    Ok(())
}

/// Appends the number of the values as a 32-bit number, 1 to 5 bytes, and then the values one after
/// another. `AllocError` only where an allocation failed; the buffer is then as before.
pub fn write_counted<T: Write>(items: &[T], buf: &mut Vec<u8>) -> Result<(), AllocError>
    requires { length items.now < 2 ^ 32 }
    ensures ok { OnOk result
        (buf.new.items ≡ buf.old.items ++
        (number_32.encoding (length items.now) ++ flat_map T.encoding items.now)) }
    ensures err { OnErr result (buf.new.items ≡ buf.old.items) }
{
    let start = buf.len();
    write_u32(items.len() as u32, buf)?;
    let done = write_all(items, buf);
    or_restore(buf, start, done)
}

/// The number of bytes of the encoded number of values and of the values. It stops at 2^64 - 1.
pub fn size_counted<T: EncodeSize>(items: &[T]) -> usize
    requires few { length items.now < 2 ^ 32 }
    ensures size { result ≡ min (length (number_32.encoding (length items.now) ++
        flat_map T.encoding items.now)) (2 ^ 64 - 1) }
    ensures values { All T.is_value items.now }
    ensures limited { result ≤ 5 + length items.now * T.limit }
{
    let mut size = size_u32(items.len() as u32);
    for item in items {
        size = size.saturating_add(item.encode_size());
    }
    size
}
