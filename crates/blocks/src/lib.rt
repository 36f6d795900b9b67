// The exercise block: labels and terms, the layout and its accessors, validity, states.
#![tactic(auto)]

pub mod exercise;
pub mod labels;
pub mod layout;
pub mod remapping;
pub mod sides;
pub mod states;
pub mod terms;
pub mod validity;
