//! Reads the messages of a stream one after another.

ghost use Rattle.std.specs.Prelude.{◌≡◌, ◌+◌, ◌<◌, ◌≤◌, ℕ, List, [], ◌∷◌, ◌++◌, length, false, true, Ok, IfOk, IfSome, IsTrue, OnOk};
ghost use Rattle.std.specs.Option.{is_none};
ghost use Rattle.simplex_base.specs.Format.{format_under};
ghost use Rattle.simplex_base.specs.Finality.{IsFinal};
ghost use Rattle.simplex_base.specs.Reading.{Fails, same_error};
ghost use Rattle.simplex_base.specs.declared.codec.error.Error.TheVariants as errors;
ghost use Rattle.simplex_stream.specs.Messages.{IsOver, IsStuck, IsStop};
ghost use Rattle.simplex_stream.specs.Progress.{IsProgress, IsShown, FollowsOn, LeavesRoom};

use crate::fault::refusal;
use simplex_base::codec::parts::known_bytes;
use simplex_base::codec::{Error, Read};
use std::alloc::{AllocError, Global};

/// A type whose values stand one after another in a stream. Each is read under the bound of the greatest committee.
pub trait Message: Read<Cfg = u32> {
    /// The greatest length of a message that is read under a bound.
    ghost longest: { ℕ → ℕ };

    /// Whether refusals are final: a refusal other than `EndOfBuffer` is the refusal of every longer input too, and bytes
    /// refused by `EndOfBuffer` are fewer than the longest message has. Unless a type says so, they are not known to be.
    fn refusals_are_final() -> bool
        ensures settled { IsTrue result → (bound : ℕ) → IsFinal (Self.reading bound) (longest bound) }
    {
        false
    }

    /// No encoding is empty.
    ghost never_empty: { (m : Self) → 0 < length (Self.encoding m) };
}

/// Takes messages one after another.
pub trait Visitor<M: Message> {
    /// What it looks at beside its state and the messages.
    type Context;

    /// The second state is the first after these messages.
    ghost follows: { Self.Context → List M → Self → Self → Type 0 };

    /// The state can take messages of this many bytes.
    ghost has_room: { Self → ℕ → Type 0 };

    /// Takes one more message, whose encoding has `size` bytes. `AllocError` only where an allocation failed.
    fn take(
        &mut self,
        alloc: Global,
        context: &Self::Context,
        size: usize,
        message: &M,
    ) -> Result<(), AllocError>
        requires size { size ≡ length (M.encoding message.now) }
        requires room { has_room self.old size }
        ensures { OnOk result (follows context.now (message.now ∷ []) self.old self.new) };

    /// After no message the state is as it was.
    ghost none: { (context : Self.Context) (state : Self) → follows context [] state state };

    /// One message more.
    ghost more: { (context : Self.Context) (ms : List M) (m : M) (a b c : Self) →
        follows context ms a b → follows context (m ∷ []) b c →
        follows context (ms ++ m ∷ []) a c };

    /// Where there is room for some bytes, there is room for fewer,
    ghost less: { (a : Self) (n k : ℕ) → has_room a (n + k) → has_room a n };

    /// and a message takes no more room than its bytes.
    ghost left: { (context : Self.Context) (m : M) (a b : Self) (n : ℕ) →
        follows context (m ∷ []) a b → has_room a (length (M.encoding m) + n) → has_room b n };
}

/// A message that may be quicker to read and show to a visitor at once than to read first: a value that is returned is copied.
pub trait Show: Message + Drop {
    /// The messages that may be left to `read_cfg`.
    ghost is_long: { Self → Type 0 };

    /// Shows the message at the front of some bytes to the visitor, if it is a short one, moves the slice past it, and returns
    /// true. After false all is as before: the bytes are refused, or begin with a long message. `AllocError` only where an
    /// allocation failed.
    fn show_short<V: Visitor<Self>>(
        alloc: Global,
        context: &V::Context,
        bound: u32,
        input: &mut &[u8],
        visitor: &mut V,
    ) -> Result<bool, AllocError>
        requires { V.has_room visitor.old (length input.old.now) }
        ensures shown { IfOk result (λ shown. IsShown (Self.reading bound) (V.follows context.now) shown
            input.old.now input.new.now visitor.old visitor.new) }
        ensures long { IfOk result (λ shown. shown ≡ false →
            IfOk (Self.reading bound input.old.now) (λ x. Self.is_long x.0)) };
}

/// What was read of some bytes.
#[derive(Clone, Copy)]
pub struct Progress<'a> {
    /// How many messages were read.
    pub read: usize,
    /// The bytes after the last message.
    pub rest: &'a [u8],
    /// The error of reading a message there, if anything is left.
    pub stop: Option<Error>,
}

/// Why no message follows at the start of bytes of which no prefix encodes one: nothing is left, or reading is refused.
/// `AllocError` only where an allocation failed.
pub fn stop_of<M: Message + Drop>(
    alloc: Global,
    bound: u32,
    bytes: &[u8],
) -> Result<Option<Error>, AllocError>
    ensures { IfOk result (λ stop. IsStuck (format_under ⟦<M as Read>⟧ bound) bytes.now →
        IsStop (⟦<M as Read>⟧.reading bound) bytes.now stop) }
{
    let mut rest: &[u8] = known_bytes(bytes);
    if rest.is_empty() {
        return Ok(None);
    }
    let Err(error) = M::read_cfg(alloc, &mut rest, &bound) else {
        return Ok(None);
    };
    Ok(Some(refusal(error)?))
}

/// Whether reading is over where it stopped: some bytes are left there and refused, and stay so whatever follows them.
pub fn is_over<M: Message>(stop: &Option<Error>) -> bool
    ensures { IsTrue result → (bound : ℕ) (rest : List ℕ) →
        IsStop (⟦<M as Read>⟧.reading bound) rest stop.now → IsOver (⟦<M as Read>⟧.reading bound) rest }
{
    let Some(error) = stop else {
        return false;
    };
    !ends_early(error) && M::refusals_are_final()
}

/// Whether the bytes ended too early.
fn ends_early(error: &Error) -> bool
    ensures { result ≡ same_error error.now errors.EndOfBuffer }
{
    match error {
        Error::EndOfBuffer => true,
        Error::InvalidVarint => false,
        Error::InvalidBool => false,
        Error::Invalid(_, _) => false,
        Error::ExtraData => false,
        Error::OutOfMemory => false,
    }
}

/// Reads the message at the front of some bytes under a bound, moves the slice past it, and shows it to the visitor. If none
/// can be read, it returns why, and all is as before. `AllocError` only where an allocation failed.
#[inline(always)]
fn show_next<M: Show, V: Visitor<M>>(
    alloc: Global,
    context: &V::Context,
    bound: u32,
    input: &mut &[u8],
    visitor: &mut V,
) -> Result<Option<Error>, AllocError>
    requires { V.has_room visitor.old (length input.old.now) }
    ensures shown { IfOk result (λ stop. IsShown (⟦<M as Read>⟧.reading bound) (V.follows context.now) (is_none stop)
        input.old.now input.new.now visitor.old visitor.new) }
    ensures refused { IfOk result (λ stop. IfSome stop (λ error.
        Fails false error (⟦<M as Read>⟧.reading bound input.old.now))) }
{
    if M::show_short(alloc, context, bound, input, visitor)? {
        return Ok(None);
    }
    show_read::<M, V>(alloc, context, bound, input, visitor)
}

/// Does what `show_next` does for a message of any length. It stands apart, for a function clears the room of its locals
/// whenever it is called.
#[inline(never)]
fn show_read<M: Message + Drop, V: Visitor<M>>(
    alloc: Global,
    context: &V::Context,
    bound: u32,
    input: &mut &[u8],
    visitor: &mut V,
) -> Result<Option<Error>, AllocError>
    requires { V.has_room visitor.old (length input.old.now) }
    ensures shown { IfOk result (λ stop. IsShown (⟦<M as Read>⟧.reading bound) (V.follows context.now) (is_none stop)
        input.old.now input.new.now visitor.old visitor.new) }
    ensures refused { IfOk result (λ stop. IfSome stop (λ error.
        Fails false error (⟦<M as Read>⟧.reading bound input.old.now))) }
{
    let mut rest: &[u8] = *input;
    let message = M::read_cfg(alloc, &mut rest, &bound);
    match &message {
        Ok(message) => {
            show_front(alloc, context, bound, message, rest, input, visitor)?;
            Ok(None)
        }
        Err(error) => Ok(Some(refusal(*error)?)),
    }
}

/// Shows a message that was read at the front of some bytes, and moves the slice to the rest.
#[inline(always)]
pub fn show_front<'a, M: Message, V: Visitor<M>>(
    alloc: Global,
    context: &V::Context,
    bound: u32,
    message: &M,
    rest: &'a [u8],
    input: &mut &'a [u8],
    visitor: &mut V,
) -> Result<bool, AllocError>
    requires read { ⟦<M as Read>⟧.reading bound input.old.now ≡ Ok (message.now, rest.now) }
    requires room { V.has_room visitor.old (length input.old.now) }
    ensures { IfOk result (λ shown. (shown ≡ true) × IsShown (⟦<M as Read>⟧.reading bound) (V.follows context.now) shown
        input.old.now input.new.now visitor.old visitor.new) }
{
    let bytes = known_bytes(*input);
    visitor.take(alloc, context, bytes.len() - rest.len(), message)?;
    *input = rest;
    Ok(true)
}

/// Reads the messages of some bytes under a bound, as many as there are, and shows each to the visitor. `AllocError` only where
/// an allocation failed; the visitor may then have taken some of the messages.
pub fn for_each_message<'a, M: Show, V: Visitor<M>>(
    alloc: Global,
    context: &V::Context,
    bound: u32,
    bytes: &'a [u8],
    visitor: &mut V,
) -> Result<Progress<'a>, AllocError>
    requires { V.has_room visitor.old (length bytes.now) }
    ensures progress { IfOk result (λ p. IsProgress (format_under ⟦<M as Read>⟧ bound)
        (λ messages. V.follows context.now messages visitor.old visitor.new) bytes.now p.rest.now p.read
        p.stop) }
    ensures room { IfOk result (λ p. p.read + length p.rest.now ≤ length bytes.now) }
{
    read_on::<M, V>(alloc, context, bound, bytes, visitor)
}

/// Does the same behind whatever messages the visitor took before, and leaves it room for what follows these bytes.
pub(crate) fn read_on<'a, M: Show, V: Visitor<M>>(
    alloc: Global,
    context: &V::Context,
    bound: u32,
    bytes: &'a [u8],
    visitor: &mut V,
) -> Result<Progress<'a>, AllocError>
    requires { V.has_room visitor.old (length bytes.now) }
    ensures progress { IfOk result (λ p. IsProgress (format_under ⟦<M as Read>⟧ bound)
        (λ messages. FollowsOn (V.follows context.now) messages visitor.old visitor.new)
        bytes.now p.rest.now p.read p.stop) }
    ensures counts { IfOk result (λ p. p.read + length p.rest.now ≤ length bytes.now) }
    ensures room { IfOk result (λ p.
        LeavesRoom V.has_room (length bytes.now) (length p.rest.now) visitor.old visitor.new) }
{
    let mut rest: &[u8] = bytes;
    let mut read = 0;
    'messages: while !rest.is_empty() {
        match show_next::<M, V>(alloc, context, bound, &mut rest, visitor)? {
            None => read += 1,
            stop => return Ok(Progress { read, rest, stop }),
        }
    }
    Ok(Progress {
        read,
        rest,
        stop: None,
    })
}
