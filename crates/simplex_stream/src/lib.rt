//! Streams of messages: what the messages of some bytes are, where they stop and why, and the one loop that reads them.
//!
//! [`messages`] has the loop, [`messages::for_each_message`], which reads messages of any type ([`messages::Message`]) one
//! after another and shows each to a [`messages::Visitor`]; what most of them are is read and shown at once, by
//! [`messages::Show`]. [`fault`] has where a stream stops being messages. A [`decoder::Decoder`] does the same for a stream
//! that comes in pieces.
//!
//! What reads streams in [`pieces`] and writes a [`text`] of them rests on readers and writers that remember failures,
//! [`watched`], and fails with a [`run_error::RunError`].
//!
//! Crates above rest on [`messages::for_each_message`], [`decoder::Decoder::feed`], [`fault::fault_at`], [`watched::Watched`],
//! [`pieces::fill`] and [`text::write_text`]. Their visitors prove what one message does.
#![tactic(auto)]

pub mod decoder;
mod derived;
pub mod fault;
pub mod messages;
pub mod pieces;
pub mod run_error;
pub mod tail;
pub mod text;
pub mod watched;
