//! Listens to an input under committees: with a window as it begins, or from where a state was.

ghost use Rattle.std.specs.Prelude.{◌≡◌, ◌⊎◌, [], false, true, Err, IfErr, IfOk, IfSome, IsTrue, None, OnErr, option_map};
ghost use Rattle.std.specs.Io.KnownBytes.{Keeps};
ghost use Rattle.simplex_live.specs.Ending.{IsFailure};
ghost use Rattle.simplex_live.specs.Listening.{AddsUp, IsHeard, IsHeardInPart, IsReady, behind_state, moved};
ghost use Rattle.simplex_live.specs.Options.{lookahead_of, window_of};
ghost use Rattle.simplex_stream.specs.Watched.{has_failed, inner_of};
ghost use Rattle.simplex_audit.specs.Outcome.{reader_use, writer_use};

use crate::complaints::Trouble;
use crate::keeping::Keeper;
use crate::options::{Options, lookahead};
use crate::state::{Mark, Recovered};
use simplex_audit::audit::{Fault, Watched};
use simplex_audit::basis::Audited;
use simplex_base::positions::{Epoch, Round, View, ViewDelta};
use simplex_cli::status::Failure;
use simplex_monitor::input::monitor_input;
use simplex_monitor::monitor::Monitor;
use simplex_monitor::window::Window;
use simplex_scheme::committees::Committees;
use simplex_scheme::scheme::{Digest, Listing};
use std::alloc::{AllocError, Global};
use std::fs::{File, Files};
use std::io::{Read, Write};

/// What was heard of an input, in numbers.
#[derive(Clone, Copy)]
pub struct Totals {
    /// Where the input stops being messages, if it does.
    pub fault: Option<Fault>,
    /// How many messages were read.
    pub read: usize,
    /// How many valid votes are recorded, from the window's floor on.
    pub votes: usize,
    /// How many messages were of rounds below the window, or of view 0.
    pub below: u64,
    /// How many messages were of rounds above the window.
    pub above: u64,
}

/// Where the window was that the options name: as it begins, or where a state was.
fn window_at(options: &Options<'_>, mark: Option<Mark>) -> Window
    ensures first { mark ≡ None → result ≡ window_of options.now.retained options.now.ahead }
    ensures later { IfSome mark (λ mark. result ≡ record {
      finalized = mark.finalized;
      current = mark.current;
      ended = mark.ended;
      view_retention = options.now.retained;
      lookahead = lookahead_of options.now.ahead;
    }) }
    ensures retains { result.view_retention ≡ options.now.retained }
    ensures looks { result.lookahead ≡ lookahead_of options.now.ahead }
{
    let first = Round::new(Epoch::new(0), View::zero());
    let (finalized, current, ended) = match mark {
        None => (first, first, first),
        Some(mark) => (mark.finalized, mark.current, mark.ended),
    };
    Window {
        finalized,
        current,
        ended,
        view_retention: ViewDelta::new(options.retained),
        lookahead: lookahead(options.ahead),
    }
}

/// A monitor that was fed nothing, with the window that the options name.
pub fn begin<'a, S: Listing<D>, D: Digest>(
    alloc: Global,
    committees: &'a Committees<S>,
    options: &Options<'_>,
) -> Monitor<'a, S, D>
    ensures { IsReady ⟦<S as Audited<D>>⟧.basis options.now.retained options.now.ahead false []
        committees.now result }
{
    let window = window_at(options, None);
    Monitor::<S, D>::new(
        alloc,
        committees,
        window.finalized,
        window.view_retention,
        window.lookahead,
    )
}

/// A monitor that took what a state held, with the options' window where the state was, and holds it. What arose there was
/// told. `OtherState` if what was held are no messages of these committees, or the window is none.
pub fn resume<'a, S: Listing<D>, D: Digest>(
    alloc: Global,
    committees: &'a Committees<S>,
    options: &Options<'_>,
    recovered: &Recovered,
) -> Result<Monitor<'a, S, D>, Trouble>
    ensures ready { IfOk result (IsReady ⟦<S as Audited<D>>⟧.basis options.now.retained options.now.ahead
        true recovered.now.held.items committees.now) }
    ensures error { IfErr result (λ trouble. (trouble ≡ Trouble.OtherState)
        ⊎ (trouble ≡ Trouble.Run Failure.OutOfMemory)) }
{
    let window = window_at(options, recovered.mark);
    if !window.is_in_order() {
        return Err(Trouble::OtherState);
    }
    let monitor = Monitor::<S, D>::holding(alloc, committees, window);
    let mut monitor = monitor.feed(recovered.held.as_slice())?;
    monitor.news();
    if monitor.place() != recovered.held.len() {
        return Err(Trouble::OtherState);
    }
    Ok(monitor)
}

/// Listens to the input with a monitor, and writes each line at once. The keeper is called before, behind each look, and behind
/// the last. What the monitor read before are so many bytes of a state that covers so many bytes of the input. `Run` if a read,
/// a write, a flush or an allocation failed, or the input has more than 2^64 - 1 bytes, and `UnwrittenState` if the state could
/// not be written at the start or at the end.
pub fn listen<'a, S: Listing<D>, D: Digest, F: Files<File = File>, R: Read, W: Write, E: Write>(
    alloc: Global,
    monitor: Monitor<'a, S, D>,
    keeper: &mut Keeper<'_, F, E>,
    skipped: usize,
    base: u64,
    input: &mut Watched<R>,
    output: &mut Watched<W>,
) -> Result<Totals, Trouble>
    requires input_well { has_failed input.old ≡ false }
    requires output_well { has_failed output.old ≡ false }
    ensures whole { IfOk result (IsHeard ⟦<S as Audited<D>>⟧.basis D.bytes_of
        (reader_use R.remaining input.old input.new)
        (writer_use W.contents output.old output.new) monitor.entry skipped base) }
    ensures begun { OnErr result (Keeps (W.contents (inner_of output.old)) (W.contents (inner_of output.new))
        ⊎ IsHeardInPart ⟦<S as Audited<D>>⟧.basis D.bytes_of
        (reader_use R.remaining input.old input.new)
        (writer_use W.contents output.old output.new) monitor.entry) }
    ensures error { IfErr result IsFailure }
    ensures read_failed { IsTrue (has_failed input.new) → result ≡ Err (Trouble.Run Failure.Read) }
    ensures write_failed { IsTrue (has_failed output.new) → result ≡ Err (Trouble.Run Failure.Write) }
{
    let mut monitor = monitor;
    let before = monitor.read();
    keeper.write(&mut monitor)?;
    let mut monitor = monitor_input(alloc, monitor, input, output, keeper)?;
    keeper.write(&mut monitor)?;
    let all = add_up(alloc, &monitor)?;
    Ok(behind_state(all, skipped, before, base))
}

/// What a monitor heard, in numbers. `AllocError` only if an allocation failed.
fn add_up<S: Listing<D>, D: Digest>(
    alloc: Global,
    monitor: &Monitor<'_, S, D>,
) -> Result<Totals, AllocError>
    ensures { IfOk result (AddsUp ⟦<S as Audited<D>>⟧.basis monitor.now) }
{
    let fault = monitor.fault(alloc)?;
    Ok(Totals {
        fault,
        read: monitor.read(),
        votes: monitor.votes(),
        below: monitor.below(),
        above: monitor.above(),
    })
}

/// The totals of an input behind a state of so many bytes and messages, which covers so many bytes of it.
fn behind_state(all: Totals, held: usize, before: usize, base: u64) -> Totals
    ensures { result ≡ behind_state held before base all }
{
    Totals {
        fault: moved(all.fault, held, base),
        read: all.read.saturating_sub(before),
        ..all
    }
}

/// A fault behind a state of so many bytes, as a fault of the input, of which so many bytes were read before.
fn moved(fault: Option<Fault>, held: usize, base: u64) -> Option<Fault>
    ensures { result ≡ option_map (moved held base) fault }
{
    match fault {
        None => None,
        Some(fault) => Some(Fault {
            place: fault
                .place
                .saturating_sub(held)
                .saturating_add(base as usize),
            error: fault.error,
        }),
    }
}
