//! Numbers in LEB128: groups of seven bits, the lowest group first. The top bit is set on each byte but the last, and
//! the last is not zero unless it is the only one, so each number has one encoding.

ghost use Rattle.std.specs.Prelude.{◌≡◌, ℕ, length, ◌++◌, None, Ok, OnOk, OnErr, IfOk, IfSome, List, take, ◌≤◌, ◌<◌, ◌+◌, ◌*◌, ◌^◌, false};
ghost use Rattle.simplex_base.specs.Reading.{Gives, GivesRest, IsBytes};
ghost use Rattle.simplex_base.specs.Varint.{IsNumber, ReadsNumber, groups, groups_at, number_at, number_32, number_64};

use crate::codec::error::Error;
use crate::codec::parts::known_bytes;
use std::alloc::AllocError;
use std::marker::Model;

/// Reads the groups of a number after the first, at most `more` + 1 of them; the last of that many is below `top`.
#[tactic(auto, unfolding(crate::specs::Varint::groups_at))]
fn groups_of(bytes: &[u8], more: u8, top: u8) -> Result<(u64, &[u8]), Error>
    requires size { top * 128 ^ more ≤ 2 ^ 64 }
    requires some { 1 ≤ top }
    ensures gives { GivesRest false (λ x. (x.0, x.1.now)) result (groups_at bytes.now more top) }
    ensures range { IfOk result (λ x. x.0 < top * 128 ^ more) }
{
    match bytes {
        [] => Err(Error::EndOfBuffer),
        [group, rest @ ..] => {
            let group = *group;
            if more == 0 {
                if 0 < group && group < top {
                    Ok((u64::from(group), rest))
                } else {
                    Err(Error::InvalidVarint)
                }
            } else if group < 128 {
                if 0 < group {
                    Ok((u64::from(group), rest))
                } else {
                    Err(Error::InvalidVarint)
                }
            } else {
                let (high, rest) = groups_of(rest, more - 1, top)?;
                Ok((u64::from(group - 128) + 128 * high, rest))
            }
        }
    }
}

/// Reads a number with at most `more` groups after the first, the last of which is below `top`.
#[tactic(auto, unfolding(crate::specs::Varint::number_at))]
fn read_number(input: &mut &[u8], more: u8, top: u8) -> Result<u64, Error>
    requires size { top * 128 ^ more ≤ 2 ^ 64 }
    requires some { (1 ≤ more) × (1 ≤ top) }
    ensures gives { Gives false result input.old.now input.new.now
        (number_at more top input.old.now) }
    ensures range { IfOk result (λ n. n < top * 128 ^ more) }
    ensures bytes { IsBytes input.old.now }
{
    let bytes = known_bytes(*input);
    match bytes {
        [] => Err(Error::EndOfBuffer),
        [group, rest @ ..] => {
            let group = *group;
            if group < 128 {
                *input = rest;
                Ok(u64::from(group))
            } else {
                let (high, rest) = groups_of(rest, more - 1, top)?;
                *input = rest;
                Ok(u64::from(group - 128) + 128 * high)
            }
        }
    }
}

/// Reads the groups of a number after the first, if these are at most three. `None` only where the bytes are refused, or begin
/// with more groups.
#[inline(always)]
#[tactic(auto, unfolding(crate::specs::Varint::groups_at))]
fn short_groups(bytes: &[u8]) -> Option<(u64, &[u8])>
    ensures wide { IfSome result (λ x. groups_at bytes.now 8 2 ≡ Ok (x.0, x.1.now)) }
    ensures narrow { IfSome result (λ x. groups_at bytes.now 3 16 ≡ Ok (x.0, x.1.now)) }
    ensures small { IfSome result (λ x. x.0 < 2 ^ 21) }
    ensures long_wide { result ≡ None → IfOk (groups_at bytes.now 8 2) (λ x. 2 ^ 21 ≤ x.0) }
    ensures long_narrow { result ≡ None → IfOk (groups_at bytes.now 3 16) (λ x. 2 ^ 21 ≤ x.0) }
{
    let [low, rest @ ..] = bytes else {
        return None;
    };
    if *low < 128 {
        return (0 < *low).then_some((u64::from(*low), rest));
    }
    let [middle, rest @ ..] = rest else {
        return None;
    };
    if *middle < 128 {
        let number = u64::from(*low - 128) + 128 * u64::from(*middle);
        return (0 < *middle).then_some((number, rest));
    }
    let [high, rest @ ..] = rest else {
        return None;
    };
    if *high >= 128 {
        return None;
    }
    let groups = u64::from(*middle - 128) + 128 * u64::from(*high);
    let number = u64::from(*low - 128) + 128 * groups;
    (0 < *high).then_some((number, rest))
}

/// Reads a number of at most four bytes, and returns what follows it, too. `None` only where the bytes are refused, or begin
/// with a longer number. It is for readers that look at short messages first: unlike a `Result`, what it returns needs no room
/// that has to be cleared.
#[inline(always)]
#[tactic(auto, unfolding(crate::specs::Varint::number_at))]
pub fn short_number(bytes: &[u8]) -> Option<(u64, &[u8])>
    ensures wide { IfSome result (λ x. number_64.reading bytes.now ≡ Ok (x.0, x.1.now)) }
    ensures narrow { IfSome result (λ x. number_32.reading bytes.now ≡ Ok (x.0, x.1.now)) }
    ensures small { IfSome result (λ x. x.0 < 2 ^ 28) }
    ensures long_wide { result ≡ None → IfOk (number_64.reading bytes.now) (λ x. 2 ^ 28 ≤ x.0) }
    ensures long_narrow { result ≡ None → IfOk (number_32.reading bytes.now) (λ x. 2 ^ 28 ≤ x.0) }
{
    match bytes {
        [] => None,
        [group, rest @ ..] => {
            let group = *group;
            if group < 128 {
                Some((u64::from(group), rest))
            } else {
                let (high, rest) = short_groups(rest)?;
                Some((u64::from(group - 128) + 128 * high, rest))
            }
        }
    }
}

/// Reads a 64-bit number of 1 to 10 bytes and moves the slice past it. `EndOfBuffer` where the whole input is a
/// proper prefix of the encoding of some 64-bit number, as the empty input is, and `InvalidVarint` where no such
/// encoding is a prefix of the input, nor the input of one.
pub fn read_u64(input: &mut &[u8]) -> Result<u64, Error>
    ensures reads { ReadsNumber (2 ^ 64) result input.old.now input.new.now }
    ensures gives { Gives false result input.old.now input.new.now
        (number_64.reading input.old.now) }
{
    read_number(input, 9, 2)
}

/// Reads a 32-bit number of 1 to 5 bytes, as [`read_u64`] reads one of 64 bits.
pub fn read_u32(input: &mut &[u8]) -> Result<u32, Error>
    ensures reads { ReadsNumber (2 ^ 32) result input.old.now input.new.now }
    ensures gives { Gives false result input.old.now input.new.now
        (number_32.reading input.old.now) }
{
    match read_number(input, 4, 16) {
        Ok(number) => Ok(number as u32),
        Err(error) => Err(error),
    }
}

/// The encoding of a number, on the stack.
#[derive(Drop)]
pub struct Varint {
    bytes: [u8; 10],
    len: usize,
}

impl Model for Varint {
    ghost Value = { List ℕ };

    ghost view = { λ varint. take varint.len varint.bytes };

    ghost invariant = { λ varint. varint.len ≤ 10 };
}

impl Varint {
    /// The encoding of a 64-bit number, 1 to 10 bytes; of a 32-bit number 1 to 5.
    #[tactic(auto, unfolding(crate::specs::Varint::groups), using(crate::specs::VarintLaws::groups_32))]
    pub fn new(number: u64) -> Self
        ensures wide { result ≡ number_64.encoding number }
        ensures narrow { number < 2 ^ 32 → result ≡ number_32.encoding number }
    {
        let mut bytes = [0; 10];
        let mut len = 0;
        let mut rest = number;
        'groups: while rest >= 128 {
            bytes[len] = (rest % 128 + 128) as u8;
            rest /= 128;
            len += 1;
        }
        bytes[len] = rest as u8;
        Varint {
            bytes,
            len: len + 1,
        }
    }

    /// The bytes of the encoding.
    pub fn as_slice(&self) -> &[u8]
        ensures { result.now ≡ self.now }
    {
        &self.bytes[..self.len]
    }
}

/// Appends the encoding of a 64-bit number, 1 to 10 bytes. `AllocError` only where an allocation
/// failed; the buffer is then as before.
#[tactic(auto, using(crate::specs::VarintLaws::encodes_64, crate::specs::VarintLaws::only_encoding_64))]
pub fn write_u64(number: u64, buf: &mut Vec<u8>) -> Result<(), AllocError>
    ensures ok { OnOk result (buf.new.items ≡ buf.old.items ++ number_64.encoding number) }
    ensures err { OnErr result (buf.new.items ≡ buf.old.items) }
    // The encoding is one by the grammar, and the only one.
    ensures number { IsNumber (number_64.encoding number) number }
    ensures only { (bytes : List ℕ) → IsNumber bytes number → bytes ≡ number_64.encoding number }
{
    buf.extend_from_slice(Varint::new(number).as_slice())
}

/// Appends the encoding of a 32-bit number, 1 to 5 bytes. `AllocError` only where an allocation
/// failed; the buffer is then as before.
#[tactic(auto, using(crate::specs::VarintLaws::encodes_32, crate::specs::VarintLaws::only_encoding_32))]
pub fn write_u32(number: u32, buf: &mut Vec<u8>) -> Result<(), AllocError>
    ensures ok { OnOk result (buf.new.items ≡ buf.old.items ++ number_32.encoding number) }
    ensures err { OnErr result (buf.new.items ≡ buf.old.items) }
    ensures number { IsNumber (number_32.encoding number) number }
    ensures only { (bytes : List ℕ) → IsNumber bytes number → bytes ≡ number_32.encoding number }
{
    buf.extend_from_slice(Varint::new(u64::from(number)).as_slice())
}

/// The number of bytes of a 64-bit number's encoding, 1 to 10.
#[tactic(auto, using(crate::specs::VarintLaws::groups_len_64))]
pub fn size_u64(number: u64) -> usize
    ensures size { result ≡ length (number_64.encoding number) }
    ensures small { result ≤ 10 }
{
    Varint::new(number).as_slice().len()
}

/// The number of bytes of a 32-bit number's encoding, 1 to 5.
#[tactic(auto, using(crate::specs::VarintLaws::groups_len_32))]
pub fn size_u32(number: u32) -> usize
    ensures size { result ≡ length (number_32.encoding number) }
    ensures small { result ≤ 5 }
{
    Varint::new(u64::from(number)).as_slice().len()
}
