//! Access rules: which users may read, write and delete which files. It is a room because rules are decided without a server: what serves
//! stands on it, and nothing below.
#![tactic(auto)]

pub mod bearing;
pub mod deciding;
pub mod examples;
pub mod rules;

pub use deciding::{Verdict, decide, maximal};
pub use rules::{Rule, Rules, RulesError};
