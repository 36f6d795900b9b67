// The language: matching, applying, goals, relabelling.
#![tactic(auto)]

pub mod matching;
pub mod relabelling;
pub mod rules;
