//! Who leads, by hashers and electors of the tests' own, and what a node's views reach.

ghost use Rattle.std.specs.Prelude.{◌≡◌, ◌≤◌, ◌-◌, ◌∷◌, [], length, refl};
ghost use Rattle.std.specs.List.{fold};
ghost use Rattle.simplex_base.specs.Positions as positions;
ghost use Rattle.simplex_lead.specs.declared.elector.mode.Mode.TheVariants.{Dynamic};

use crate::without_memory::is_out;
use sha2::Digest as _;
use simplex_base::codec::Fixed;
use simplex_base::codec::fixed_bytes::FixedBytes;
use simplex_base::positions::{Epoch, Participant, Round, TermLength, View, ViewDelta};
use simplex_lead::elector::{Config, Elector, Mode, RoundRobin, Terms, can_be_stable};
use simplex_lead::{Lookahead, Viewport};
use simplex_scheme::scheme::{CertificateScheme, Hasher, Set, Sha256, max_faults, quorum};
use simplex_schemes::marked::{Marked, MarkedDigest, MarkedDigestRole};
use std::alloc::{AllocError, Global};
use std::process::Abort;
use std::test::Fail;
use std::time::Duration;

/// A hasher whose digest is the same for all bytes.
struct Same;

impl Hasher for Same {
    type Digest = FixedBytes<MarkedDigestRole, 1>;

    ghost digest_of = { λ _. 0 ∷ [] };

    fn hash(_parts: &[&[u8]]) -> MarkedDigest {
        MarkedDigest::from_bytes(&[0])
    }
}

/// A hasher whose digest falls as the last byte rises: 255 minus that byte.
struct Falling;

impl Hasher for Falling {
    type Digest = FixedBytes<MarkedDigestRole, 1>;

    ghost digest_of = { λ bytes. (255 - fold (λ _ byte. byte) 0 bytes) ∷ [] };

    fn hash(parts: &[&[u8]]) -> MarkedDigest {
        let mut last = 0;
        for part in parts {
            last = last_of(part, last);
        }
        MarkedDigest::from_bytes(&[255 - last])
    }
}

/// The last of the bytes, or `none` where there is none.
fn last_of(bytes: &[u8], none: u8) -> u8
    ensures { result ≡ fold (λ _ byte. byte) none bytes.now }
{
    bytes.iter().fold(none, |_, byte| *byte)
}

/// A configuration of electors by which participant 0 always leads, with any certificate.
#[derive(Clone, Drop)]
struct FirstAlways(Terms);

/// An elector by which participant 0 always leads.
#[derive(Clone, Copy)]
struct First {
    terms: Terms,
    participants: u32,
    ghost some: { 1 ≤ participants },
}

impl<S: CertificateScheme> Config<S> for FirstAlways {
    ghost use Rattle.std.proofs.Common.{sym, ◌∙◌};

    type Elector = First;

    ghost builds = { λ config keys elector. (elector.terms ≡ config.0) ×
        (elector.participants ≡ length keys) };

    fn build(self, _alloc: Global, participants: &Set<S::PublicKey>) -> Result<First, AllocError> {
        Ok(First {
            terms: self.0,
            participants: participants.len() as u32,
        })
    }

    ghost agree = { λ config keys one other is_one is_other. record {
      modes = refl;
      terms = is_one.0 ∙ sym is_other.0;
      participants = is_one.1 ∙ sym is_other.1;
      leaders = λ _ _. refl;
    } };

    ghost clones = { λ config copy keys elector same.
        ((λ is. (is.0 ∙ same, is.1)), (λ is. (is.0 ∙ sym same, is.1))) };
}

impl<S: CertificateScheme> Elector<S> for First {
    ghost use Rattle.std.proofs.Common.{sym};
    ghost use Rattle.simplex_lead.specs.ElectionLaws.{one_alike};

    ghost mode_of = { λ _. Dynamic };

    ghost terms_of = { λ elector. elector.terms };

    ghost participants_of = { λ elector. elector.participants };

    ghost leader_of = { λ _ _ _. 0 };

    fn mode(&self) -> Mode {
        Mode::Dynamic
    }

    fn terms(&self) -> Terms {
        self.terms
    }

    fn elect(&self, _round: Round, _certificate: Option<&S::Certificate>) -> Participant {
        Participant::new(0)
    }

    ghost ignores = { λ _ _ _ _ _. refl };

    ghost one_a_term = { λ _ _ _ _ _ _ _ _. refl };

    ghost clones = { λ elector copy same. one_alike _ _ _ _ elector copy (sym same) };
}

/// An elector of this configuration, for this committee, has this mode and these terms, rotating ones if none are given, and
/// elects in this order for the first views of epoch 0, from view 0 on. It allocates nothing for that.
fn check<C: Config<Marked>>(
    rt: &impl Abort,
    alloc: Global,
    committee: &Marked,
    config: C,
    (mode, terms): (Mode, Option<Terms>),
    order: &[u32],
) -> Result<(), Fail> {
    let elector = config.build(alloc, committee.participants())?;
    let _ = is_out(alloc);
    let terms = match terms {
        Some(terms) => terms,
        None => Terms::rotating(),
    };
    assert!(rt; elector.mode() == mode && elector.terms() == terms);
    assert!(rt; first_other(&elector, order).is_none());
    Ok(())
}

/// The first view of epoch 0 that is not led in this order.
fn first_other<E: Elector<Marked>>(elector: &E, order: &[u32]) -> Option<u64> {
    for (view, leader) in (0_u64..).zip(order) {
        let round = Round::new(Epoch::new(0), View::new(view));
        if elector.elect(round, None).get() != *leader {
            return Some(view);
        }
    }
    None
}

/// With this hasher the committee of five leads the first six views in this order.
fn check_order<H: Hasher>(
    rt: &impl Abort,
    alloc: Global,
    five: &Marked,
    order: [u32; 6],
) -> Result<(), Fail> {
    let shuffled: RoundRobin<H> = RoundRobin::shuffled(alloc, b"s")?;
    check(rt, alloc, five, shuffled, (Mode::Scheduled, None), &order)
}

/// Equal digests leave the order as it is, and falling ones reverse it.
#[test]
fn ample_chosen_hashes(rt: HostRuntime) -> Result<(), Fail> {
    let five = Marked::new(rt.alloc(), 5, None)?;
    check_order::<Same>(&rt, rt.alloc(), &five, [0, 1, 2, 3, 4, 0])?;
    check_order::<Falling>(&rt, rt.alloc(), &five, [4, 3, 2, 1, 0, 4])
}

/// The numbers below this one in the order of SHA-256 of the seed followed by the number in four bytes, the most
/// significant first.
fn by_digest(alloc: Global, seed: &[u8], participants: u32) -> Result<Vec<u32>, AllocError> {
    let mut order = Vec::new(alloc);
    for number in 0..participants {
        let digest = sha2::Sha256::new()
            .chain_update(seed)
            .chain_update(number.to_be_bytes())
            .finalize();
        order.push((digest, number))?;
    }
    order.sort_unstable();
    let mut numbers = Vec::new(alloc);
    for (_, number) in order {
        numbers.push(number)?;
    }
    Ok(numbers)
}

/// The order in which the committee of ten leads with a seed, which is that of the digests.
fn order_of(rt: &impl Abort, alloc: Global, ten: &Marked, seed: &[u8]) -> Result<Vec<u32>, Fail> {
    let shuffled: RoundRobin<Sha256> = RoundRobin::shuffled(alloc, seed)?;
    let order = by_digest(alloc, seed, 10)?;
    let wanted = (Mode::Scheduled, None);
    check(rt, alloc, ten, shuffled, wanted, order.as_slice())?;
    Ok(order)
}

/// Two seeds give two orders.
#[test]
fn ample_seeds(rt: HostRuntime) -> Result<(), Fail> {
    let ten = Marked::new(rt.alloc(), 10, None)?;
    let first = order_of(&rt, rt.alloc(), &ten, b"seed1")?;
    let second = order_of(&rt, rt.alloc(), &ten, b"seed2")?;
    assert!(rt; first.as_slice() != second.as_slice());
    Ok(())
}

#[test]
fn ample_elector_of_its_own(rt: HostRuntime) -> Result<(), Fail> {
    let four = Marked::new(rt.alloc(), 4, None)?;
    let terms = Terms::stable(
        TermLength::new(3),
        Duration::from_secs(10),
        ViewDelta::new(1),
    );
    let wanted = (Mode::Dynamic, Some(terms));
    check(&rt, rt.alloc(), &four, FirstAlways(terms), wanted, &[0; 4])
}

#[test]
fn terms_are_rotating_or_stable(rt: HostRuntime) {
    let second = Duration::from_secs(1);
    assert!(rt; !can_be_stable(TermLength::ONE, second));
    assert!(rt; !can_be_stable(TermLength::new(2), Duration::ZERO));
    assert!(rt; can_be_stable(TermLength::new(2), Duration::from_nanos(1)));
}

/// The last view that fits, of the longest terms.
#[test]
fn the_last_view_that_fits(rt: HostRuntime) {
    let look = Lookahead {
        term_length: TermLength::new(4_294_967_295),
        optimistic_views: ViewDelta::new(3),
    };
    assert!(rt; look.fits(View::new(18_446_744_065_119_617_025)));
    assert!(rt; !look.fits(View::new(18_446_744_065_119_617_026)));
}

/// A rotation of four goes by rotating terms, and all lead in turn.
#[test]
fn without_memory_leaders(rt: HostRuntime) -> Result<(), Fail> {
    let four = Marked::new(rt.alloc(), 4, None)?;
    let rotation = RoundRobin::<Sha256>::default();
    let wanted = (Mode::Scheduled, None);
    check(&rt, rt.alloc(), &four, rotation, wanted, &[0, 1, 2, 3, 0])
}

/// A rotation in terms of 20 views without a seed, its elector, and clones of both are made without an allocation.
#[test]
fn without_memory_rotation(rt: HostRuntime) -> Result<(), Fail> {
    let four = Marked::new(rt.alloc(), 4, None)?;
    let _ = is_out(rt.alloc());
    let (length, second) = (TermLength::new(20), Duration::from_secs(1));
    assert!(rt; can_be_stable(length, second));
    let rotation = RoundRobin::<Sha256>::default().with_term(length, second, ViewDelta::new(2));
    let terms = terms_of(rt.alloc(), &rotation, &four)?;
    assert!(rt; terms == Terms::stable(length, second, ViewDelta::new(2)));
    Ok(())
}

/// The terms of a copy of the elector that a copy of the rotation builds.
fn terms_of(
    alloc: Global,
    rotation: &RoundRobin<Sha256>,
    four: &Marked,
) -> Result<Terms, AllocError> {
    let elector = Config::<Marked>::build(rotation.clone()?, alloc, four.participants())?;
    Ok(Elector::<Marked>::terms(&elector.clone()?))
}

/// The elector of the most participants is made without an allocation if there is no seed.
#[test]
fn without_memory_most_participants(rt: HostRuntime) -> Result<(), Fail> {
    let _ = is_out(rt.alloc());
    let elector = RoundRobin::<Sha256>::default().build_for::<Marked>(rt.alloc(), u32::MAX)?;
    let round = Round::new(Epoch::new(3), View::new(10));
    assert!(rt; elector.elect(round, None).get() == 13);
    Ok(())
}

/// What each mode makes of a certificate.
#[test]
fn without_memory_modes(rt: HostRuntime) {
    let _ = is_out(rt.alloc());
    assert!(rt; Mode::Scheduled.input(Some(&7)).is_none());
    assert!(rt; Mode::Dynamic.input(Some(&7)) == Some(&7));
    assert!(rt; Mode::Dynamic.early::<u32>().is_none());
    assert!(rt; matches!(Mode::Scheduled.early::<u32>(), Some(None)));
}

/// What stable terms hold, and what rotating ones, which are the default.
#[test]
fn without_memory_terms(rt: HostRuntime) {
    let _ = is_out(rt.alloc());
    let (length, second) = (TermLength::new(20), Duration::from_secs(1));
    assert!(rt; can_be_stable(length, second));
    let terms = Terms::stable(length, second, ViewDelta::new(2));
    assert!(rt; terms.length().get() == 20 && terms.stall_timeout() == Some(second));
    assert!(rt; terms.optimistic_views() == ViewDelta::new(2));
    let terms = Terms::default();
    assert!(rt; terms == Terms::rotating() && terms.length() == TermLength::ONE);
    assert!(rt; terms.stall_timeout().is_none() && terms.optimistic_views() == ViewDelta::new(0));
}

/// Sums and differences of views, a fault bound and a quorum.
#[test]
fn without_memory_views(rt: HostRuntime) {
    let _ = is_out(rt.alloc());
    let view = View::new(10);
    assert!(rt; view.saturating_add(ViewDelta::new(5)) == View::new(15));
    assert!(rt; view.saturating_sub(ViewDelta::new(11)) == View::zero());
    assert!(rt; View::zero().is_zero() && !view.is_zero());
    assert!(rt; max_faults(4) == 1 && quorum(4) == 3);
}

/// The term of 20 views that holds view 10.
#[test]
fn without_memory_term_of_a_view(rt: HostRuntime) {
    let _ = is_out(rt.alloc());
    let (view, length) = (View::new(10), TermLength::new(20));
    assert!(rt; view.term_index(length) == 1 && view.term_start(length) == View::new(1));
    assert!(rt; view.term_fits(length) && !view.is_term_start(length));
    assert!(rt; view.term_end(length) == View::new(20));
    assert!(rt; view.next_term_start(length) == View::new(21));
    assert!(rt; view.admits(View::new(21), length) && !view.admits(View::new(12), length));
}

/// A lookahead of two optimistic views in terms of 20 views.
fn lookahead() -> Lookahead {
    let (length, second) = (TermLength::new(20), Duration::from_secs(1));
    Lookahead::new(&Terms::stable(length, second, ViewDelta::new(2)))
}

#[test]
fn without_memory_lookahead(rt: HostRuntime) {
    let _ = is_out(rt.alloc());
    let (view, lookahead) = (View::new(10), lookahead());
    assert!(rt; lookahead.fits(view));
    assert!(rt; lookahead.admission_limit(view) == View::new(15));
    assert!(rt; lookahead.in_admission_window(view, View::new(15)));
    assert!(rt; lookahead.admits(view, View::new(24)) && !lookahead.admits(view, View::new(25)));
    assert!(rt; lookahead.admits_outbound(view, View::new(12)));
    assert!(rt; lookahead.issuance_floor(view) == Some(View::new(7)));
}

#[test]
fn without_memory_viewport(rt: HostRuntime) {
    let _ = is_out(rt.alloc());
    let lookahead = lookahead();
    assert!(rt; lookahead.fits(View::new(10)));
    let viewport = Viewport {
        finalized: View::new(5),
        current: View::new(10),
        view_retention: ViewDelta::new(10),
        lookahead,
    };
    assert!(rt; viewport.floor() == View::zero());
    assert!(rt; viewport.retains(View::new(1)) && !viewport.retains(View::zero()));
    assert!(rt; viewport.admits_vote(View::new(15)) && viewport.admits_certificate(View::new(99)));
}
