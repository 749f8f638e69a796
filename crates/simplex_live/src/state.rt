//! The state of `audit_live` as bytes: which committees it is of, and then records. A record says how far the input was taken
//! and where the window was, and has the messages that were held since the record before.

ghost use Rattle.std.specs.Prelude.{◌≡◌, ◌≢◌, ◌↔◌, ◌++◌, ◌+◌, ◌<◌, ◌≤◌, IfOk, IfSome, OnOk, IsTrue, List, ℕ, None, drop, length, map, string_bytes, take};
ghost use Rattle.simplex_live.specs.State.{AreRecords, covered_of, IsHeadOf, IsStateOf, framed, head_bytes, mark_bytes, number_bytes, record_bytes, round_bytes, words_given};

use simplex_base::codec::Fixed;
use simplex_base::positions::{Epoch, Round, View};
use simplex_cli::groups::count_keys;
use simplex_scheme::scheme::{Hasher, Sha256};
use std::alloc::{AllocError, Global};

/// What a state begins with: the kind and version of the file.
const KIND: &[u8; 8] = b"simplex1";

/// How many bytes the head of a state has.
const HEAD: usize = 48;

/// How many bytes stand in front of a record's body: its length, and SHA-256 of it.
const FRAME: usize = 40;

/// How many bytes of a record's body are its mark.
const MARK: usize = 56;

/// How far the input was taken, and where the window was.
#[derive(Clone, Copy)]
pub struct Mark {
    /// How many bytes the messages have that were read so far.
    pub covers: u64,
    /// The last round that was finalized.
    pub finalized: Round,
    /// The last round that has a certificate.
    pub current: Round,
    /// The last round of an earlier epoch that has a certificate.
    pub ended: Round,
}

/// What was read of a state.
#[derive(Drop)]
pub struct Recovered {
    /// The last whole record's mark, if there is a record.
    pub mark: Option<Mark>,
    /// The messages of all whole records, joined.
    pub held: Vec<u8>,
}

impl Recovered {
    /// How many bytes of the input the state covers: 0 without a record.
    pub fn covers(&self) -> u64
        ensures { result ≡ covered_of self.now.mark }
    {
        match self.mark {
            None => 0,
            Some(mark) => mark.covers,
        }
    }
}

/// What a state of the committees that these words name begins with: 48 bytes. They are the kind of the file, how many words
/// there are, and SHA-256 of the words, each behind its length.
pub fn head(alloc: Global, words: &[String]) -> Result<Vec<u8>, AllocError>
    ensures { IfOk result (λ made. made.items ≡ head_bytes (map string_bytes words.now)) }
{
    let mut text = Vec::new(alloc);
    'words: for word in words {
        text.extend_from_slice(&(word.len() as u64).to_le_bytes())?;
        text.extend_from_slice(word.as_bytes())?;
    }
    let mut head = Vec::new(alloc);
    head.extend_from_slice(KIND)?;
    head.extend_from_slice(&(words.len() as u64).to_le_bytes())?;
    head.extend_from_slice(Sha256::hash(&[text.as_slice()]).as_bytes())?;
    Ok(head)
}

/// Whether a state with this head is of the committees that words name, or of those that the first words name, behind which the
/// groups of further epochs stand.
fn is_of(alloc: Global, own: &[u8], words: &[String]) -> Result<bool, AllocError>
    requires { length own.now ≡ 48 }
    ensures { IfOk result (λ fits. IsTrue fits ↔ IsHeadOf (map string_bytes words.now) own.now) }
{
    let count = number_at(own, KIND.len());
    if count > words.len() as u64 {
        return Ok(false);
    }
    let (front, behind) = words.split_at(count as usize);
    if count_keys(behind) > 0 {
        return Ok(false);
    }
    Ok(head(alloc, front)?.as_slice() == own)
}

/// Appends 8 bytes of a round's epoch and 8 of its view.
fn push_round(bytes: &mut Vec<u8>, round: Round) -> Result<(), AllocError>
    ensures { OnOk result (bytes.new.items ≡ bytes.old.items ++ round_bytes round) }
{
    bytes.extend_from_slice(&round.epoch().get().to_le_bytes())?;
    bytes.extend_from_slice(&round.view().get().to_le_bytes())?;
    Ok(())
}

/// A record: 8 bytes of its length, SHA-256 of what follows, the mark, and messages.
pub fn record(alloc: Global, mark: &Mark, messages: &[u8]) -> Result<Vec<u8>, AllocError>
    ensures { IfOk result (λ made. made.items ≡ record_bytes mark.now messages.now) }
{
    let mut body = Vec::new(alloc);
    body.extend_from_slice(&mark.covers.to_le_bytes())?;
    push_round(&mut body, mark.finalized)?;
    push_round(&mut body, mark.current)?;
    push_round(&mut body, mark.ended)?;
    body.extend_from_slice(messages)?;
    let mut record = Vec::new(alloc);
    record.extend_from_slice(&(body.len() as u64).to_le_bytes())?;
    record.extend_from_slice(Sha256::hash(&[body.as_slice()]).as_bytes())?;
    record.extend_from_slice(body.as_slice())?;
    Ok(record)
}

/// The number of 8 bytes at a place, the least significant byte first; 0 behind the bytes.
fn number_at(bytes: &[u8], place: usize) -> u64
    ensures { place + 8 ≤ length bytes.now → number_bytes result ≡ take 8 (drop place bytes.now) }
{
    let Some(rest) = bytes.get(place..) else {
        return 0;
    };
    match rest.first_chunk::<8>() {
        None => 0,
        Some(number) => u64::from_le_bytes(*number),
    }
}

/// The round at a place: 8 bytes of its epoch and 8 of its view.
fn round_at(bytes: &[u8], place: usize) -> Round
    ensures { place + 16 ≤ length bytes.now → round_bytes result ≡ take 16 (drop place bytes.now) }
{
    let epoch = number_at(bytes, place);
    let view = number_at(bytes, place.saturating_add(8));
    Round::new(Epoch::new(epoch), View::new(view))
}

/// The mark that a record's body begins with.
fn mark_of(body: &[u8]) -> Mark
    ensures { 56 ≤ length body.now → mark_bytes result ≡ take 56 body.now }
{
    Mark {
        covers: number_at(body, 0),
        finalized: round_at(body, 8),
        current: round_at(body, 24),
        ended: round_at(body, 40),
    }
}

/// The body of a whole record at the start of some bytes, and how many bytes the record has; `None` if there is none.
fn body(bytes: &[u8]) -> Option<(&[u8], usize)>
    ensures size { IfSome result (λ (_, size). (0 < size) × (size ≤ length bytes.now)) }
    ensures marked { IfSome result (λ (body, _). 56 ≤ length body.now) }
    ensures there { IfSome result (λ (body, size). bytes.now ≡
        framed body.now ++ drop size bytes.now) }
    ensures none { result ≡ None → (body behind : List ℕ) → 56 ≤ length body →
        bytes.now ≢ framed body ++ behind }
{
    let size = number_at(bytes, 0) as usize;
    let Some(digest) = bytes.get(8..FRAME) else {
        return None;
    };
    let behind = &bytes[FRAME..];
    if size < MARK || size > behind.len() {
        return None;
    }
    let body = &behind[..size];
    if Sha256::hash(&[body]).as_bytes() != digest {
        return None;
    }
    Some((body, FRAME + size))
}

/// The records that some bytes begin with, up to the first that is not whole.
fn records(alloc: Global, bytes: &[u8]) -> Result<Recovered, AllocError>
    ensures { IfOk result (λ recovered. AreRecords bytes.now recovered) }
{
    let mut held = Vec::new(alloc);
    let mut mark = None;
    let mut rest = bytes;
    'records: while let Some((body, size)) = body(rest) {
        mark = Some(mark_of(body));
        held.extend_from_slice(&body[MARK..])?;
        rest = &rest[size..];
    }
    Ok(Recovered { mark, held })
}

/// What is left of a state of the committees that words name, or of any if no words are given: its records up to the first that
/// is not whole. `None` if the state is of other committees, or no state.
pub fn recover(
    alloc: Global,
    words: Option<&[String]>,
    bytes: &[u8],
) -> Result<Option<Recovered>, AllocError>
    ensures own { IfOk result (λ got. IfSome got (λ _.
        IsStateOf (words_given words.entry) bytes.now)) }
    ensures other { IfOk result (λ got. got ≡ None →
        ¬ IsStateOf (words_given words.entry) bytes.now) }
    ensures records { IfOk result (λ got. IfSome got (λ recovered. AreRecords (drop 48 bytes.now) recovered)) }
{
    let begins = bytes.len().min(KIND.len());
    if !KIND.starts_with(&bytes[..begins]) {
        return Ok(None);
    }
    if bytes.len() < HEAD {
        return Ok(Some(records(alloc, &[])?));
    }
    let (own, rest) = bytes.split_at(HEAD);
    if let Some(words) = words {
        if !is_of(alloc, own, words)? {
            return Ok(None);
        }
    }
    Ok(Some(records(alloc, rest)?))
}
