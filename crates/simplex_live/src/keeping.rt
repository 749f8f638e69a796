//! What `audit_live` does behind each look: it keeps a state on disk, says once that no vote is valid, and once that nothing
//! that follows can be read.

ghost use Rattle.std.specs.Prelude.{◌≡◌, IfErr, List, ℕ};
ghost use Rattle.simplex_alarm.specs.Alarm.{Told};
ghost use Rattle.simplex_live.specs.Ending.{IsFailure};
ghost use Rattle.simplex_monitor.specs.Hearing.{AllTold};
ghost use Rattle.simplex_monitor.specs.Monitoring.{HoldsAsBefore, Listens, fed_of};
ghost use Rattle.simplex_monitor.specs.declared.window.Window as windows;
ghost use Rattle.simplex_scheme.specs.Committees.{Schedule};

use crate::complaints::{Trouble, complain, say_number};
use crate::state::Mark;
use crate::store::Store;
use simplex_audit::audit::Watched;
use simplex_audit::basis::Audited;
use simplex_cli::command::say;
use simplex_monitor::input::Hook;
use simplex_monitor::monitor::Monitor;
use simplex_scheme::scheme::{Digest, Listing};
use std::alloc::Global;
use std::fs::{File, Files};
use std::io::Write;

/// After how many messages it is said that no vote is valid.
const ENOUGH: usize = 1000;

/// After how many bytes of input a state is written if there were no lines.
const DUE: usize = 1 << 20;

/// How many bytes may be appended to a state before it is looked whether it has doubled.
const SHORT: usize = 1 << 16;

/// Keeps a state, if there is one, and says what fails in that.
#[derive(Drop)]
pub struct Keeper<'a, F: Files<File = File>, E: Write> {
    alloc: Global,
    store: Option<Store<'a, F>>,
    errors: &'a mut Watched<E>,
    /// How many bytes of the input were read in runs before this one.
    base: u64,
    /// How many bytes of what the monitor has read are the state's.
    skipped: usize,
    /// How far the monitor had read at the last writing.
    place: usize,
    /// How many bytes of what it holds are written.
    written: usize,
    /// How many bytes were written when the state was written anew.
    short: usize,
    /// Whether enough messages came to say whether votes are valid.
    judged: bool,
    /// Whether it was said that nothing that follows can be read.
    over: bool,
    /// Whether a failure to write the state was said.
    said: bool,
}

/// Where a monitor is.
fn mark<S: Listing<D>, D: Digest>(monitor: &Monitor<'_, S, D>, base: u64, skipped: usize) -> Mark {
    let window = monitor.window();
    Mark {
        covers: base.saturating_add(monitor.place().saturating_sub(skipped) as u64),
        finalized: window.finalized,
        current: window.current,
        ended: window.ended,
    }
}

impl<'a, F: Files<File = File>, E: Write> Keeper<'a, F, E> {
    /// Nothing was written yet. The monitor has read so many bytes of a state, and the input begins at so many bytes.
    pub(crate) fn new(
        alloc: Global,
        store: Option<Store<'a, F>>,
        errors: &'a mut Watched<E>,
        base: u64,
        skipped: usize,
    ) -> Self {
        Keeper {
            alloc,
            store,
            errors,
            base,
            skipped,
            place: skipped,
            written: 0,
            short: 0,
            judged: false,
            over: false,
            said: false,
        }
    }

    /// Says once that no vote is valid, if so many messages came, and how many of these are beside the window.
    fn judge<S: Listing<D>, D: Digest>(&mut self, monitor: &Monitor<'_, S, D>) {
        if self.judged || monitor.read() < ENOUGH {
            return;
        }
        self.judged = true;
        if monitor.votes() > 0 {
            return;
        }
        say(
            self.errors,
            b"audit_live: no vote that was taken is valid in ",
        );
        say_number(self.errors, monitor.read() as u64);
        say(self.errors, b" messages, ");
        say_number(self.errors, monitor.below().saturating_add(monitor.above()));
        say(
            self.errors,
            b" of them beside the window: are namespace, keys and window right?\n",
        );
    }

    /// Says once that nothing that follows can be read, and from which byte of the input on.
    fn stop<S: Listing<D>, D: Digest>(&mut self, monitor: &Monitor<'_, S, D>) {
        if self.over || !monitor.is_over() {
            return;
        }
        self.over = true;
        say(self.errors, b"audit_live: fault at byte ");
        say_number(self.errors, mark(monitor, self.base, self.skipped).covers);
        say(self.errors, b": what follows is dropped\n");
    }

    /// Writes to the state what is new: by appending it, or anew once what is held has doubled.
    pub fn write<S: Listing<D>, D: Digest>(
        &mut self,
        monitor: &mut Monitor<'_, S, D>,
    ) -> Result<(), Trouble>
        ensures listens { (start : windows.Window) (committees : Schedule S)
            (told : Told D S.Signature) (stream : List ℕ) →
            Listens ⟦<S as Audited<D>>⟧.basis start committees told stream monitor.old →
            Listens ⟦<S as Audited<D>>⟧.basis start committees told stream monitor.new }
        ensures told { AllTold monitor.old → AllTold monitor.new }
        ensures fed { fed_of monitor.new ≡ fed_of monitor.old }
        ensures holds { HoldsAsBefore monitor.old monitor.new }
        ensures error { IfErr result IsFailure }
    {
        let Some(store) = &mut self.store else {
            return Ok(());
        };
        let mark = mark(monitor, self.base, self.skipped);
        self.place = monitor.place();
        if store.can_append() {
            let held = monitor.held().unwrap_or(&[]);
            if held.len() < self.short.saturating_mul(2).saturating_add(SHORT) {
                let more = held.get(self.written..).unwrap_or(&[]);
                self.written = held.len();
                return store.append(self.alloc, &mark, more);
            }
        }
        monitor.shorten(self.alloc)?;
        let held = monitor.held().unwrap_or(&[]);
        store.write_anew(self.alloc, &mark, held)?;
        self.short = held.len();
        self.written = held.len();
        Ok(())
    }

    /// Writes the state, and says the first failure.
    fn keep<S: Listing<D>, D: Digest>(&mut self, monitor: &mut Monitor<'_, S, D>)
        ensures listens { (start : windows.Window) (committees : Schedule S)
            (told : Told D S.Signature) (stream : List ℕ) →
            Listens ⟦<S as Audited<D>>⟧.basis start committees told stream monitor.old →
            Listens ⟦<S as Audited<D>>⟧.basis start committees told stream monitor.new }
        ensures told { AllTold monitor.old → AllTold monitor.new }
        ensures fed { fed_of monitor.new ≡ fed_of monitor.old }
        ensures holds { HoldsAsBefore monitor.old monitor.new }
    {
        if let Err(trouble) = self.write(monitor) {
            if !self.said {
                complain(self.errors, trouble);
            }
            self.said = true;
        }
    }
}

impl<'a, F: Files<File = File>, E: Write, S: Listing<D>, D: Digest> Hook<S, D>
    for Keeper<'a, F, E> {
    fn looked(&mut self, monitor: &mut Monitor<'_, S, D>, told: bool) {
        self.judge(monitor);
        self.stop(monitor);
        if told || monitor.place().saturating_sub(self.place) >= DUE {
            self.keep(monitor);
        }
    }
}
