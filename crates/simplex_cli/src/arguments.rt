//! The arguments of a program: a namespace, and the keys of one committee or of one for each of some epochs.

ghost use Rattle.std.specs.Prelude.{◌≡◌, ◌⊎◌, Err, IfOk, IfErr, map, string_bytes};
ghost use Rattle.simplex_cli.specs.Arguments.{AreArguments, AreGiven, AreNoArguments, AreNotGiven, BeginAsArguments, BeginAsCommittees, NameCommittees, NameNoCommittees};

use crate::groups::{count_keys, parse_groups};
use crate::naming::Named;
use crate::status::Failure;
use simplex_audit::audit::Committees;
use simplex_schemes::plain::Plain;
use std::alloc::Global;

/// The committees that texts name: one for every epoch, or in groups one for each of some epochs. The texts are checked from
/// left to right: `Failure::Usage` where they name none, `Failure::OutOfMemory` where an allocation failed before that was
/// found.
pub fn parse_committees<S: Named>(
    alloc: Global,
    common: &S::Common,
    texts: &[String],
) -> Result<Committees<S>, Failure>
    ensures committees { IfOk result
        (NameCommittees (S.naming common.now) (map string_bytes texts.now)) }
    ensures usage { result ≡ Err Failure.Usage →
        NameNoCommittees (S.naming common.now) (map string_bytes texts.now) }
    // An allocation failed only once all before it was right.
    ensures memory { result ≡ Err Failure.OutOfMemory →
        BeginAsCommittees (S.naming common.now) (map string_bytes texts.now) }
    ensures failure { IfErr result (λ e. (e ≡ Failure.Usage) ⊎ (e ≡ Failure.OutOfMemory)) }
{
    if count_keys(texts) > 0 {
        let committee = S::parse(alloc, common, texts)?;
        return Ok(Committees::every(committee));
    }
    let pairs = parse_groups::<S>(alloc, common, texts)?;
    match Committees::try_from_vec(pairs) {
        Ok(committees) => Ok(committees),
        Err(_) => Err(Failure::Usage),
    }
}

/// Reads the arguments, without the program's name: a namespace, and then keys, or groups of an epoch and keys. They are
/// checked from left to right: `Failure::Usage` where they are no such arguments, `Failure::OutOfMemory` where an
/// allocation failed before that was found.
pub fn parse(alloc: Global, arguments: &[String]) -> Result<Committees<Plain>, Failure>
    ensures committees { IfOk result (AreArguments (map string_bytes arguments.now)) }
    ensures usage { result ≡ Err Failure.Usage → AreNoArguments (map string_bytes arguments.now) }
    // An allocation failed only once there were a namespace and keys, and all before it was right.
    ensures memory { result ≡ Err Failure.OutOfMemory →
        BeginAsArguments (map string_bytes arguments.now) }
    ensures failure { IfErr result (λ e. (e ≡ Failure.Usage) ⊎ (e ≡ Failure.OutOfMemory)) }
{
    let Some((namespace, texts)) = arguments.split_first() else {
        return Err(Failure::Usage);
    };
    let committees = parse_committees::<Plain>(alloc, namespace, texts)?;
    Ok(committees)
}

/// Reads the arguments, without the program's name: none, or a namespace, and then keys, or groups of an epoch and keys.
/// `Failure::Usage` where they are none of these, `Failure::OutOfMemory` where an allocation failed before that was found.
pub fn parse_any(alloc: Global, arguments: &[String]) -> Result<Option<Committees<Plain>>, Failure>
    ensures given { IfOk result (AreGiven (map string_bytes arguments.now)) }
    ensures usage { result ≡ Err Failure.Usage → AreNotGiven (map string_bytes arguments.now) }
    ensures memory { result ≡ Err Failure.OutOfMemory →
        BeginAsArguments (map string_bytes arguments.now) }
    ensures failure { IfErr result (λ e. (e ≡ Failure.Usage) ⊎ (e ≡ Failure.OutOfMemory)) }
{
    if arguments.is_empty() {
        return Ok(None);
    }
    let committees = parse(alloc, arguments)?;
    Ok(Some(committees))
}
