//! Certificates that list their attestations, and the schemes that have them.
//!
//! [`listed`] has these certificates, and [`certificates`] how they are verified and assembled. The schemes are
//! [`plain`], which signs by a hash and has no secrets, [`vouched`], whose signatures the caller has verified by another
//! library, and [`marked`] for tests.
//!
//! Crates above rest on [`certificates::AttestationVerifier`] and the calls beside it, by which a further scheme only
//! has to say when one signature is valid.
#![tactic(auto)]

pub mod certificates;
mod derived;
mod hashed;
pub mod listed;
pub mod marked;
pub mod own;
pub mod plain;
pub mod vouched;
