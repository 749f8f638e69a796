//! What arises with each message: evidence is told once, and a split each time that more participants are accused. The alarm
//! looks at the round of a message only after a detector has observed it.
//!
//! Crates above rest on [`alarm::Alarm`], over [`alerts::Alerts`] and [`split_alerts::SplitAlerts`].
#![tactic(auto)]

pub mod alarm;
pub mod alerts;
pub mod split_alerts;
