//! What the plain scheme hashes. The bytes before the key are the same for all votes of a kind, so a committee hashes them
//! once; the key and the numbers of the message are laid out one after another, and hashed by one call.

ghost use Rattle.std.specs.Prelude.{◌≡◌, ◌+◌, ◌++◌, ◌≤◌, ℕ, List, length};
ghost use Rattle.sha2.specs.Sha256.{sha256};
ghost use Rattle.simplex_base.specs.Positions.{round_format};
ghost use Rattle.simplex_base.specs.Varint.{number_64};
ghost use Rattle.simplex_schemes.specs.Hashers.{HoldNames, HoldsName};
ghost use Rattle.simplex_schemes.specs.Plain.{hashed};

use crate::plain::{PlainKey, PlainSignature};
use sha2::{Digest, Sha256};
use simplex_base::codec::Fixed;
use simplex_base::codec::varint::Varint;
use simplex_base::positions::{Round, View};
use simplex_scheme::scheme::Namespace;
use std::marker::Model;

/// For each kind of vote a hasher of what is hashed before the key: the namespace's length as a number, and the namespace.
#[derive(Drop)]
pub(crate) struct Hashers {
    pub(crate) notarize: Sha256,
    pub(crate) nullify: Sha256,
    pub(crate) finalize: Sha256,
}

impl Hashers {
    /// The hashers of these namespaces.
    pub(crate) fn new(names: &Namespace) -> Hashers
        ensures { HoldNames result names.now }
    {
        Hashers {
            notarize: hasher_of(names.notarize.as_slice()),
            nullify: hasher_of(names.nullify.as_slice()),
            finalize: hasher_of(names.finalize.as_slice()),
        }
    }
}

/// A hasher of a namespace's length and the namespace.
fn hasher_of(name: &[u8]) -> Sha256
    ensures { HoldsName result name.now }
{
    let size = Varint::new(name.len() as u64);
    Sha256::new_with_prefix(size.as_slice()).chain_update(name)
}

/// A key and then up to three numbers, on the stack.
#[derive(Drop)]
struct Head {
    bytes: [u8; 62],
    len: usize,
}

impl Model for Head {
    ghost use Rattle.std.specs.Prelude.{List, ℕ, ◌≤◌, take};

    ghost Value = { List ℕ };

    ghost view = { λ head. take head.len head.bytes };

    ghost invariant = { λ head. head.len ≤ 62 };
}

impl Head {
    /// The key alone.
    fn new(key: &PlainKey) -> Head
        ensures bytes { result ≡ key.now }
        ensures size { length result ≡ 32 }
    {
        let mut bytes = [0; 62];
        bytes[..32].copy_from_slice(key.as_bytes());
        Head { bytes, len: 32 }
    }

    /// One number more.
    fn push(&mut self, number: u64)
        requires { length self.old + 10 ≤ 62 }
        ensures more { self.new ≡ self.old ++ number_64.encoding number }
        ensures size { length self.new ≤ length self.old + 10 }
    {
        let number = Varint::new(number);
        let number = number.as_slice();
        let end = self.len + number.len();
        self.bytes[self.len..end].copy_from_slice(number);
        self.len = end;
    }

    /// The bytes.
    fn as_slice(&self) -> &[u8]
        ensures { result.now ≡ self.now }
    {
        &self.bytes[..self.len]
    }
}

/// A key and a round.
fn head_of_round(key: &PlainKey, round: Round) -> Head
    ensures bytes { result ≡ key.now ++ round_format.encoding round }
    ensures size { length result ≤ 52 }
{
    let mut head = Head::new(key);
    head.push(round.epoch().get());
    head.push(round.view().get());
    head
}

/// The hash of what the hasher holds, a key and a round.
pub(crate) fn hash_of_round(hasher: &Sha256, key: &PlainKey, round: Round) -> PlainSignature
    ensures { (name : List ℕ) → HoldsName hasher.now name →
        result ≡ sha256 (hashed name key.now (round_format.encoding round)) }
{
    let head = head_of_round(key, round);
    let mut hasher = hasher.clone().unwrap();
    hasher.update(head.as_slice());
    PlainSignature::from_bytes(&hasher.finalize())
}

/// The hash of what the hasher holds, a key and a proposal.
pub(crate) fn hash_of_proposal(
    hasher: &Sha256,
    key: &PlainKey,
    round: Round,
    parent: View,
    payload: &[u8],
) -> PlainSignature
    ensures { (name : List ℕ) → HoldsName hasher.now name →
        result ≡ sha256 (hashed name key.now (round_format.encoding round ++
        (number_64.encoding parent ++ payload.now))) }
{
    let mut head = head_of_round(key, round);
    head.push(parent.get());
    let mut hasher = hasher.clone().unwrap();
    hasher.update(head.as_slice());
    hasher.update(payload);
    PlainSignature::from_bytes(&hasher.finalize())
}
