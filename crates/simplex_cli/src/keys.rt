//! The keys of a committee, as arguments name them.

ghost use Rattle.std.specs.Prelude.{◌≡◌, ℕ, List, Some, Ok, Err, IfOk, IfErr, None, false, ◌⊎◌, map, string_bytes, IsTrue};
ghost use Rattle.simplex_cli.specs.Arguments.{AreNoKeys, IsNamedCommittee, NameKeys, key_named, keys_named};

use crate::naming::Named;
use crate::status::Failure;
use hex::FromHex;
use simplex_base::codec::Fixed;
use simplex_schemes::plain::{Plain, PlainKey, is_committee_size};
use std::alloc::{AllocError, Global};

/// The key that a text names by 64 hexadecimal digits of either case.
fn parse_key(text: &str) -> Result<PlainKey, Failure>
    ensures key { IfOk result (λ key. key_named text.now ≡ Some key) }
    ensures usage { IfErr result (λ e. (e ≡ Failure.Usage) × (key_named text.now ≡ None)) }
{
    match <[u8; 32]>::from_hex(text) {
        Ok(bytes) => Ok(PlainKey::from_bytes(&bytes)),
        Err(_) => Err(Failure::Usage),
    }
}

/// Whether each text names a key.
fn name_keys(texts: &[String]) -> bool
    ensures yes { IsTrue result → (keys : List (List ℕ)) ×
        (keys_named (map string_bytes texts.now) ≡ Some keys) }
    ensures no { result ≡ false → keys_named (map string_bytes texts.now) ≡ None }
{
    'texts: for text in texts {
        let Ok(_) = parse_key(text.as_str()) else {
            return false;
        };
    }
    true
}

/// The keys that texts name, in the order of the texts.
fn parse_keys(alloc: Global, texts: &[String]) -> Result<Vec<PlainKey>, Failure>
    ensures keys { IfOk result (λ keys. keys_named (map string_bytes texts.now) ≡ Some keys.items) }
    ensures usage { result ≡ Err Failure.Usage → keys_named (map string_bytes texts.now) ≡ None }
    ensures failure { IfErr result (λ e. (e ≡ Failure.Usage) ⊎ (e ≡ Failure.OutOfMemory)) }
{
    let mut keys = Vec::with_capacity(alloc, texts.len())?;
    for text in texts {
        let key = parse_key(text.as_str())?;
        keys.push(key).map_err(AllocError::from)?;
    }
    Ok(keys)
}

/// The committee of the keys that texts name, in any order: `Failure::Usage` where they are not the keys of a committee,
/// `Failure::OutOfMemory` where an allocation failed before that was found. Only a repeated key is found after an allocation.
pub fn parse_committee(alloc: Global, namespace: &str, texts: &[String]) -> Result<Plain, Failure>
    ensures committee { IfOk result (IsNamedCommittee namespace.now (map string_bytes texts.now)) }
    ensures usage { result ≡ Err Failure.Usage → AreNoKeys (map string_bytes texts.now) }
    ensures memory { result ≡ Err Failure.OutOfMemory → NameKeys (map string_bytes texts.now) }
    ensures failure { IfErr result (λ e. (e ≡ Failure.Usage) ⊎ (e ≡ Failure.OutOfMemory)) }
{
    if !is_committee_size(texts.len()) {
        return Err(Failure::Usage);
    }
    if !name_keys(texts) {
        return Err(Failure::Usage);
    }
    let keys = parse_keys(alloc, texts)?;
    match Plain::of_keys(alloc, namespace.as_bytes(), keys)? {
        Some(committee) => Ok(committee),
        None => Err(Failure::Usage),
    }
}

/// By the keys of its participants, under a namespace.
impl Named for Plain {
    ghost use Rattle.simplex_cli.specs.Arguments.{by_keys};
    ghost use Rattle.simplex_cli.specs.KeyLaws.{naming_by_keys};

    type Common = String;

    ghost naming = { λ namespace. by_keys (string_bytes namespace) };

    ghost is_naming = { λ namespace. naming_by_keys (string_bytes namespace) };

    fn parse(alloc: Global, namespace: &String, texts: &[String]) -> Result<Plain, Failure> {
        parse_committee(alloc, namespace.as_str(), texts)
    }
}
