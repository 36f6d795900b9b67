// Stepping back: the states that a rule takes to a given one, in rank order, and whether a rule is reversible by form.
#![tactic(auto)]

mod choices;
pub mod predecessors;
pub mod reversible;
mod showing;
