//! Reads the messages of a stream one after another, with nothing verified, and notes where their attestations stand.

ghost use Rattle.std.specs.Prelude.{◌≡◌, ◌+◌, ◌<◌, ◌^◌, [], ◌∷◌, length, IfOk, OnOk};
ghost use Rattle.simplex_rules.specs.Rules.{AreLawful};
ghost use Rattle.simplex_rules.specs.declared.judging.Judging.TheVariants.{Claimed};
ghost use Rattle.simplex_places.specs.Claims.{ReadsPlaces};
ghost use Rattle.simplex_places.specs.Suspects.{AreRead};

use crate::located::{Counted, Located};
use crate::places::{Placed, push_message};
use simplex_audit::basis::Audited;
use simplex_base::codec::Encoding;
use simplex_detector::detector::Detector;
use simplex_evidence::types::Activity;
use simplex_laws::laws::committees_are_lawful;
use simplex_rules::judging::Judging;
use simplex_rules::rules::Judges;
use simplex_scheme::committees::Committees;
use simplex_scheme::scheme::{Digest, SchemeTypes};
use simplex_stream::messages::{Visitor, for_each_message};
use std::alloc::{AllocError, Global};

/// What was read of a stream.
#[derive(Drop)]
pub struct Claims<S: SchemeTypes, D: Digest> {
    /// The state of the messages, judged as `Claimed`.
    pub detector: Detector<S, D>,
    /// The attestations, in the order of the stream.
    pub places: Vec<Placed>,
}

/// Reads where the attestations of messages stand, one message after another.
#[derive(Drop)]
pub struct PlaceReader {
    /// The attestations so far, in the order of the stream.
    pub places: Vec<Placed>,
    /// The place behind the last message.
    pub place: usize,
}

/// Notes the attestations of the next message, whose encoding has `size` bytes.
fn read_next<S: Counted<D>, D: Digest>(
    reader: &mut PlaceReader,
    size: usize,
    message: &Activity<S, D>,
) -> Result<(), AllocError>
    requires size { size ≡ length (⟦<Activity<S, D> as Encoding>⟧.encoding message.now) }
    requires room { reader.old.place + size < 2 ^ 64 }
    ensures { OnOk result (ReadsPlaces ⟦<S as Located<D>>⟧.places
        ⟦<Activity<S, D> as Encoding>⟧.encoding (message.now ∷ []) reader.old reader.new) }
{
    push_message(reader.place, message, &mut reader.places)?;
    reader.place += size;
    Ok(())
}

impl<S: Counted<D>, D: Digest> Visitor<Activity<S, D>> for PlaceReader {
    ghost use Rattle.std.proofs.Common.{arith};
    ghost use Rattle.simplex_places.specs.ClaimsLaws.{places_none, places_more};
    ghost use Rattle.simplex_stream.specs.PlaceLaws.{room_behind};

    type Context = ();

    ghost follows = { λ _. ReadsPlaces
        ⟦<S as Located<D>>⟧.places ⟦<Activity<S, D> as Encoding>⟧.encoding };

    ghost has_room = { λ state size. state.place + size < 2 ^ 64 };

    fn take(
        &mut self,
        _alloc: Global,
        _context: &(),
        size: usize,
        message: &Activity<S, D>,
    ) -> Result<(), AllocError> {
        read_next(self, size, message)
    }

    ghost none = { λ _. places_none
        ⟦<S as Located<D>>⟧.places ⟦<Activity<S, D> as Encoding>⟧.encoding };

    ghost more = { λ _. places_more
        ⟦<S as Located<D>>⟧.places ⟦<Activity<S, D> as Encoding>⟧.encoding };

    ghost less = { λ state n k room. Prim.omega (arith, room) };

    ghost left = { λ _ m a b n one. room_behind ⟦<Activity<S, D> as Encoding>⟧.encoding
        a.place b.place n m one.place_is };
}

/// Reads what messages claim, one after another.
#[derive(Drop)]
pub struct ClaimReader<S: SchemeTypes, D: Digest> {
    /// The state of the messages so far, judged as `Claimed`.
    pub detector: Detector<S, D>,
    /// Where their attestations stand.
    pub reader: PlaceReader,
}

impl<S: Counted<D>, D: Digest> Visitor<Activity<S, D>> for ClaimReader<S, D> {
    ghost use Rattle.std.proofs.Common.{arith};
    ghost use Rattle.simplex_places.specs.Claims.{ReadsClaims};
    ghost use Rattle.simplex_places.specs.ClaimsLaws.{claims_none, claims_more};
    ghost use Rattle.simplex_stream.specs.PlaceLaws.{room_behind};

    type Context = Committees<S>;

    ghost follows = { λ committees. ReadsClaims
        (⟦<S as Judges<D>>⟧.rules_under Claimed committees)
        ⟦<S as Located<D>>⟧.places ⟦<Activity<S, D> as Encoding>⟧.encoding };

    ghost has_room = { λ state size. state.reader.place + size < 2 ^ 64 };

    fn take(
        &mut self,
        alloc: Global,
        committees: &Committees<S>,
        size: usize,
        message: &Activity<S, D>,
    ) -> Result<(), AllocError> {
        read_next(&mut self.reader, size, message)?;
        self.detector
            .observe(alloc, committees, &Judging::Claimed, message)?;
        Ok(())
    }

    ghost none = { λ committees. claims_none
        (⟦<S as Judges<D>>⟧.rules_under Claimed committees)
        ⟦<S as Located<D>>⟧.places ⟦<Activity<S, D> as Encoding>⟧.encoding };

    ghost more = { λ committees. claims_more
        (⟦<S as Judges<D>>⟧.rules_under Claimed committees)
        ⟦<S as Located<D>>⟧.places ⟦<Activity<S, D> as Encoding>⟧.encoding };

    ghost less = { λ state n k room. Prim.omega (arith, room) };

    ghost left = { λ committees m a b n one. room_behind ⟦<Activity<S, D> as Encoding>⟧.encoding
        a.reader.place b.reader.place n m one.reads.place_is };
}

/// The bound under which messages are read. The clause `lawful` states that the committees judge lawfully.
pub fn reading_bound<S: Counted<D>, D: Digest>(committees: &Committees<S>) -> u32
    ensures value { result ≡ (⟦<S as Audited<D>>⟧.basis committees.now).bound }
    ensures lawful { AreLawful (⟦<S as Audited<D>>⟧.basis committees.now).rules }
{
    committees_are_lawful::<S, D>();
    committees.bound()
}

/// Reads the messages of a stream, as many as there are. The bound is that of the committees.
pub fn read_claims<S: Counted<D>, D: Digest>(
    alloc: Global,
    committees: &Committees<S>,
    bound: u32,
    stream: &[u8],
) -> Result<Claims<S, D>, AllocError>
    ensures { IfOk result (λ claims. bound ≡ (⟦<S as Audited<D>>⟧.basis committees.now).bound →
        AreRead (⟦<S as Audited<D>>⟧.basis committees.now)
        (⟦<S as Audited<D>>⟧.basis_under Claimed committees.now).rules
        ⟦<S as Located<D>>⟧.places stream.now claims.detector claims.places.items) }
{
    let mut reader = ClaimReader {
        detector: Detector::new(alloc),
        reader: PlaceReader {
            places: Vec::new(alloc),
            place: 0,
        },
    };
    for_each_message::<Activity<S, D>, ClaimReader<S, D>>(
        alloc,
        committees,
        bound,
        stream,
        &mut reader,
    )?;
    let ClaimReader { detector, reader } = reader;
    let PlaceReader { places, .. } = reader;
    Ok(Claims { detector, places })
}
