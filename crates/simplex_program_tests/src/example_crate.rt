//! Whom a stream accuses, as the README shows it.

use examples::accused::accused;
use simplex_base::codec::Fixed;
use simplex_base::positions::{Epoch, Participant, Round, View};
use simplex_schemes::plain::PlainKey;
use std::test::Fail;

/// Two messages: the notarizes of two payloads for view 10 of epoch 0, after view 5, that the one participant with a key of
/// zeros signs under the base `test`.
pub(crate) const TWICE: &str =
    "00000a05060606060606060606060606060606060606060606060606060606060606060600\
    8c6774d2f68c567d3d7099353ba7b9a73b4a3919f00bf8571c6cf14b8b0e1fbc\
    00000a05070707070707070707070707070707070707070707070707070707070707070700\
    85c5f612872154ca52e992a79aec3bfdc407bf2873f7f4372e33b4be6de3d71b";

#[test]
fn ample_the_example_accuses_the_signer(rt: HostRuntime) -> Result<(), Fail> {
    let alloc = rt.alloc();
    let stream = hex::decode(alloc, TWICE)?;
    let key = PlainKey::from_bytes(&[0; 32]);
    let keys = Vec::from_array(alloc, [key])?;
    let found = accused(alloc, b"test", keys, stream.as_slice())?.ok_or("no committee")?;
    let voted_in = Round::new(Epoch::new(0), View::new(10));
    assert_eq!(rt;
        found.as_slice(),
        [(voted_in, Participant::new(0))].as_slice()
    );
    let twice = Vec::from_array(alloc, [key, key])?;
    assert!(rt; accused(alloc, b"test", twice, stream.as_slice())?.is_none());
    Ok(())
}
