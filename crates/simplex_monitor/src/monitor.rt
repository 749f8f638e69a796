//! An auditor that listens to the network for long.

ghost use Rattle.std.specs.Prelude.{◌≡◌, ◌+◌, ◌-◌, ◌<◌, ◌≤◌, ◌^◌, ◌++◌, ℕ, List, [], false, map, min, length, IfOk, IfSome, IsTrue, OnErr, OnOk, is_some};
ghost use Rattle.std.specs.List.{flat_map};
ghost use Rattle.simplex_scheme.specs.Committees.{Schedule};
ghost use Rattle.simplex_alarm.specs.Alarm.{Told, nothing_told, told_then};
ghost use Rattle.simplex_rules.specs.Values.{evidence_value};
ghost use Rattle.simplex_monitor.specs.Hearing.{AllTold};
ghost use Rattle.simplex_monitor.specs.Holding.{Holds, HoldsNoOther};
ghost use Rattle.simplex_monitor.specs.Monitoring.{AreFewVotes, EndsAt, HasEvidence, HasSplits, HasVotes, HoldsAsBefore, KeepsHolding, Listens, TellsRest, fed_of, held_of, listening_over, watcher_of};
ghost use Rattle.simplex_monitor.specs.Window.{IsInOrder, first_window, floor_of};
ghost use Rattle.simplex_monitor.specs.declared.window.Window as windows;

use crate::sieve::messages_from;
use crate::watcher::Watcher;
use crate::window::Window;
pub use simplex_alarm::alarm::News;
use simplex_audit::basis::Audited;
use simplex_base::positions::{Round, ViewDelta};
use simplex_evidence::types::Activity;
use simplex_laws::laws::{
    committees_are_lawful, few_votes_are_recorded, floors_rise, rounds_are_independent,
};
use simplex_lead::Lookahead;
use simplex_rules::evidence::Evidence;
use simplex_rules::split::Split;
use simplex_scheme::committees::Committees;
use simplex_scheme::scheme::{Digest, Listing, SchemeTypes};
use simplex_stream::decoder::Decoder;
use simplex_stream::fault::{Fault, fault_at};
use simplex_stream::messages::stop_of;
use std::alloc::{AllocError, Global};

/// Listens to a stream that comes in pieces, and follows the network by itself. Of the stream's messages it takes those that
/// its window admits when they come, and the valid certificates among these move the window: so nobody without a quorum's keys
/// can move it. What it knows is the state of the messages that it took, from the window's floor on. Behind a final refusal it
/// takes nothing more, and holds nothing more.
#[derive(Drop)]
pub struct Monitor<'a, S: SchemeTypes, D: Digest> {
    committees: &'a Committees<S>,
    bound: u32,
    decoder: Decoder,
    watcher: Watcher<S, D>,
}

impl<'a, S: Listing<D>, D: Digest> Monitor<'a, S, D> {
    /// A monitor of these committees that was fed nothing, and whose window begins at a round. It holds no messages.
    pub fn new(
        alloc: Global,
        committees: &'a Committees<S>,
        start: Round,
        view_retention: ViewDelta,
        lookahead: Lookahead,
    ) -> Self
        ensures fed { fed_of result ≡ 0 }
        ensures holds { is_some (held_of result) ≡ false }
        ensures listens { Listens ⟦<S as Audited<D>>⟧.basis
            (first_window start view_retention lookahead) committees.now nothing_told [] result }
    {
        let window = Window::new(start, view_retention, lookahead);
        Monitor::begin(alloc, committees, window, false)
    }

    /// A monitor of these committees that was fed nothing, and whose window begins as this one. It holds messages that can
    /// stand for those that it takes. A monitor that begins with the window of another, and is fed what that one holds, knows
    /// of the rounds from the floor on what that one knew; what it then has to tell was told by that one or is told again.
    pub fn holding(alloc: Global, committees: &'a Committees<S>, window: Window) -> Self
        requires { IsInOrder window }
        ensures fed { fed_of result ≡ 0 }
        ensures holds { IsTrue (is_some (held_of result)) }
        ensures listens { Listens ⟦<S as Audited<D>>⟧.basis window committees.now nothing_told [] result }
    {
        Monitor::begin(alloc, committees, window, true)
    }

    /// A monitor that was fed nothing.
    fn begin(alloc: Global, committees: &'a Committees<S>, window: Window, holds: bool) -> Self
        requires { IsInOrder window }
        ensures fed { fed_of result ≡ 0 }
        ensures holds { is_some (held_of result) ≡ holds }
        ensures listens { Listens ⟦<S as Audited<D>>⟧.basis window committees.now nothing_told [] result }
    {
        committees_are_lawful::<S, D>();
        Monitor {
            committees,
            bound: committees.bound(),
            decoder: Decoder::new::<Activity<S, D>>(alloc),
            watcher: Watcher::new(alloc, window, holds),
        }
    }

    /// The monitor of the stream with this piece appended. Once nothing that follows can be read, pieces are dropped,
    /// and the monitor stays as it is.
    /// `AllocError` only where an allocation failed, and then there is no monitor.
    pub fn feed(self, piece: &[u8]) -> Result<Self, AllocError>
        requires { fed_of self + length piece.now < 2 ^ 64 }
        ensures fed { IfOk result (λ next. fed_of next ≤ fed_of self.entry + length piece.now) }
        ensures over { IsTrue (listening_over self.entry) → IfOk result (λ next. next ≡ self.entry) }
        ensures holds { IfOk result (λ next. KeepsHolding ⟦<S as Audited<D>>⟧.basis self.entry next) }
        ensures listens { IfOk result (λ next. (start : windows.Window) (committees : Schedule S)
            (told : Told D S.Signature) (stream : List ℕ) →
            Listens ⟦<S as Audited<D>>⟧.basis start committees told stream self.entry →
            Listens ⟦<S as Audited<D>>⟧.basis start committees told (stream ++ piece.now) next) }
    {
        if self.decoder.is_over() {
            return Ok(self);
        }
        let Monitor {
            committees,
            bound,
            mut decoder,
            mut watcher,
        } = self;
        decoder.feed::<Activity<S, D>, Watcher<S, D>>(committees, bound, piece, &mut watcher)?;
        Ok(Monitor {
            committees,
            bound,
            decoder,
            watcher,
        })
    }

    /// Takes what arose in the messages that it took and was not told yet, from the floor on: the evidence, and the splits, a
    /// round again when more participants are accused there. None of it is taken again.
    pub fn news(&mut self) -> News<S, D>
        ensures listens { (start : windows.Window) (committees : Schedule S)
            (told : Told D S.Signature) (stream : List ℕ) →
            Listens ⟦<S as Audited<D>>⟧.basis start committees told stream self.old →
            Listens ⟦<S as Audited<D>>⟧.basis start committees
            (told_then told result) stream self.new }
        ensures rest { (start : windows.Window) (committees : Schedule S)
            (told : Told D S.Signature) (stream : List ℕ) →
            (listens : Listens ⟦<S as Audited<D>>⟧.basis start committees told stream self.old) →
            TellsRest (⟦<S as Audited<D>>⟧.basis committees).rules listens.taken told result
            self.old self.new }
        ensures told { AllTold self.new }
        ensures fed { fed_of self.new ≡ fed_of self.old }
        ensures holds { HoldsAsBefore self.old self.new }
    {
        let news = self.watcher.alarm.take();
        rounds_are_independent::<S, D>();
        news
    }

    /// Messages that can stand for those that it took, from the floor on, one after the other; `None` if it holds none. What is
    /// of rounds below the floor may stand among them until [`Monitor::shorten`] is called.
    pub fn held(&self) -> Option<&[u8]>
        ensures holds { is_some result ≡ is_some (held_of self.now) }
        ensures stands { IfSome result (λ bytes. (start : windows.Window) (committees : Schedule S)
            (told : Told D S.Signature) (stream : List ℕ) →
            (listens : Listens ⟦<S as Audited<D>>⟧.basis start committees told stream self.now) →
            Holds (⟦<S as Audited<D>>⟧.basis committees) (floor_of (watcher_of self.now).window)
            listens.taken bytes.now) }
    {
        match &self.watcher.held {
            None => None,
            Some(held) => Some(held.as_slice()),
        }
    }

    /// Leaves out of what it holds the messages of rounds below the floor. It costs a reading of what is held.
    /// `AllocError` only where an allocation failed, and then all is as it was.
    pub fn shorten(&mut self, alloc: Global) -> Result<(), AllocError>
        ensures listens { (start : windows.Window) (committees : Schedule S)
            (told : Told D S.Signature) (stream : List ℕ) →
            Listens ⟦<S as Audited<D>>⟧.basis start committees told stream self.old →
            Listens ⟦<S as Audited<D>>⟧.basis start committees told stream self.new }
        ensures short { OnOk result (IfSome (held_of self.new) (λ held. (start : windows.Window)
            (committees : Schedule S) (told : Told D S.Signature) (stream : List ℕ) →
            (listens : Listens ⟦<S as Audited<D>>⟧.basis start committees told stream self.old) →
            HoldsNoOther (⟦<S as Audited<D>>⟧.basis committees)
            (floor_of (watcher_of self.old).window) listens.taken held.items)) }
        ensures told { AllTold self.old → AllTold self.new }
        ensures fed { fed_of self.new ≡ fed_of self.old }
        ensures holds { HoldsAsBefore self.old self.new }
        ensures failed { OnErr result (self.new ≡ self.old) }
    {
        let Some(held) = &self.watcher.held else {
            return Ok(());
        };
        let floor = self.watcher.window.floor();
        let kept = messages_from::<S, D>(alloc, self.bound, floor, held.as_slice())?;
        rounds_are_independent::<S, D>();
        self.watcher.held = Some(kept);
        Ok(())
    }

    /// The evidence in the messages that it took, from the floor on.
    pub fn evidence(&self, alloc: Global) -> Result<Vec<Evidence<S, D>>, AllocError>
        ensures { IfOk result (λ found. (start : windows.Window) (committees : Schedule S)
            (told : Told D S.Signature) (stream : List ℕ) →
            (listens : Listens ⟦<S as Audited<D>>⟧.basis start committees told stream self.now) →
            HasEvidence (⟦<S as Audited<D>>⟧.basis committees).rules listens.taken self.now
            (map evidence_value found.items)) }
    {
        floors_rise::<S, D>();
        self.watcher.detector.evidence(alloc)
    }

    /// The splits in the messages that it took, from the floor on.
    pub fn splits(&self, alloc: Global) -> Result<Vec<Split>, AllocError>
        ensures { IfOk result (λ splits. (start : windows.Window) (committees : Schedule S)
            (told : Told D S.Signature) (stream : List ℕ) →
            (listens : Listens ⟦<S as Audited<D>>⟧.basis start committees told stream self.now) →
            HasSplits (⟦<S as Audited<D>>⟧.basis committees).rules listens.taken self.now splits.items) }
    {
        floors_rise::<S, D>();
        rounds_are_independent::<S, D>();
        self.watcher.detector.splits(alloc, self.committees)
    }

    /// How many valid votes of the messages that it took are recorded, from the floor on. The number stops at 2^64 - 1.
    /// Whatever anyone sends, it is at most five times the participants of the greatest committee times the views that the
    /// window looks at.
    pub fn votes(&self) -> usize
        ensures number { (start : windows.Window) (committees : Schedule S)
            (told : Told D S.Signature) (stream : List ℕ) →
            (listens : Listens ⟦<S as Audited<D>>⟧.basis start committees told stream self.now) →
            HasVotes (⟦<S as Audited<D>>⟧.basis committees).rules listens.taken self.now result }
        ensures bounded { (start : windows.Window) (committees : Schedule S)
            (told : Told D S.Signature) (stream : List ℕ) →
            Listens ⟦<S as Audited<D>>⟧.basis start committees told stream self.now →
            AreFewVotes (⟦<S as Audited<D>>⟧.basis committees) self.now result }
    {
        floors_rise::<S, D>();
        rounds_are_independent::<S, D>();
        few_votes_are_recorded::<S, D>();
        self.watcher.detector.votes()
    }

    /// Its window.
    pub fn window(&self) -> Window
        ensures { result ≡ (watcher_of self.now).window }
    {
        self.watcher.window
    }

    /// The first round that is retained.
    pub fn floor(&self) -> Round
        ensures { result ≡ floor_of (watcher_of self.now).window }
    {
        self.watcher.window.floor()
    }

    /// How many messages of the stream it has read, up to its end or its first fault.
    pub fn read(&self) -> usize
        ensures { (start : windows.Window) (committees : Schedule S)
            (told : Told D S.Signature) (stream : List ℕ) →
            (listens : Listens ⟦<S as Audited<D>>⟧.basis start committees told stream self.now) →
            result ≡ length listens.messages }
    {
        self.decoder.read()
    }

    /// Where the stream stops being messages, if it does. The bytes after the last whole message are read once for it.
    /// `AllocError` only where an allocation failed.
    pub fn fault(&self, alloc: Global) -> Result<Option<Fault>, AllocError>
        ensures { IfOk result (λ fault. (start : windows.Window) (committees : Schedule S)
            (told : Told D S.Signature) (stream : List ℕ) →
            (listens : Listens ⟦<S as Audited<D>>⟧.basis start committees told stream self.now) →
            EndsAt (⟦<S as Audited<D>>⟧.basis committees).format stream listens.messages fault) }
    {
        let stop = stop_of::<Activity<S, D>>(alloc, self.bound, self.decoder.rest())?;
        Ok(fault_at(self.decoder.place(), stop))
    }

    /// How many bytes these messages have, joined: the 0-based offset of the first byte that is not read yet.
    pub fn place(&self) -> usize
        ensures { (start : windows.Window) (committees : Schedule S)
            (told : Told D S.Signature) (stream : List ℕ) →
            (listens : Listens ⟦<S as Audited<D>>⟧.basis start committees told stream self.now) →
            result ≡ length (flat_map (⟦<S as Audited<D>>⟧.basis committees).format.encoding listens.messages) }
    {
        self.decoder.place()
    }

    /// How many of them were of rounds below the floor when they came, or of view 0. The number stops at 2^64 - 1.
    pub fn below(&self) -> u64
        ensures { (start : windows.Window) (committees : Schedule S)
            (told : Told D S.Signature) (stream : List ℕ) →
            (listens : Listens ⟦<S as Audited<D>>⟧.basis start committees told stream self.now) →
            result ≡ min listens.below (2 ^ 64 - 1) }
    {
        self.watcher.below
    }

    /// How many of them were of rounds beyond the window when they came. The number stops at 2^64 - 1.
    pub fn above(&self) -> u64
        ensures { (start : windows.Window) (committees : Schedule S)
            (told : Told D S.Signature) (stream : List ℕ) →
            (listens : Listens ⟦<S as Audited<D>>⟧.basis start committees told stream self.now) →
            result ≡ min listens.above (2 ^ 64 - 1) }
    {
        self.watcher.above
    }

    /// How many bytes it was fed and did not drop.
    pub fn fed(&self) -> usize
        ensures { result ≡ fed_of self.now }
    {
        self.decoder.fed()
    }

    /// Whether nothing that follows can be read: the bytes after the last whole message are refused, and stay so.
    pub fn is_over(&self) -> bool
        ensures { result ≡ listening_over self.now }
    {
        self.decoder.is_over()
    }
}
