//! The program `audit_live` as a function over its arguments, its files and any reader and writers. [`options`] has what its
//! arguments begin with, [`key_file`] what a file of keys names, and [`words`] which word is wrong. [`listening`] listens to
//! the input, with a window as it begins or from where a state was. [`keeping`] keeps the state, whose bytes [`state`] has and
//! whose files [`store`]. [`live`] puts them together; [`complaints`] and [`texts`] have what it says. [`judging`] is for
//! contracts alone.
#![tactic(auto)]

pub mod complaints;
mod derived;
pub mod judging;
pub mod keeping;
pub mod key_file;
pub mod listening;
pub mod live;
pub mod options;
pub mod state;
pub mod store;
pub mod texts;
pub mod words;
