//! The programs `audit`, `audit_stored`, `audit_compact` and `inspect` as functions over arguments and any reader and writers.
//! [`arguments`] reads their committees, which texts name by [`naming`]: one for every epoch, or by [`groups`] one for each
//! listed epoch. [`keys`] has those of plain keys, [`verdicts`] those whose signatures the caller verified. `inspect` may also
//! have none, and [`floors`] reads a floor before them. [`auditing`], [`compacting`] and [`inspecting`] have what they do;
//! [`showing`] has how streams are shown. [`status`] has how they end, and [`complaints`] what they say then. [`command`] runs
//! them over arguments and streams, and [`start`] over what their process is given.
//!
//! Each program rests on [`start::start`] alone, and names itself by [`program::Program`].
#![tactic(auto)]

pub mod arguments;
mod auditing;
pub mod command;
mod compacting;
pub mod complaints;
mod derived;
pub mod floors;
pub mod groups;
mod inspecting;
pub mod keys;
pub mod naming;
pub mod numbers;
pub mod options;
pub mod program;
pub mod showing;
pub mod start;
pub mod status;
pub mod verdicts;
