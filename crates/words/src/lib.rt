// States as words of 64 bits, and what compiled rules, goals and maps make of them.
#![tactic(auto)]

pub mod changes;
pub mod code;
pub mod matching;
pub mod packing;
pub mod ranking;
pub mod sides;
