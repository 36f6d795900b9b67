// The C interface: each public call of `engine` under C's calling convention. It asks nothing of its caller, and
// answers in numbers.
#![tactic(auto)]

pub mod on_exercises;
pub mod on_lists;
pub mod on_states;
pub mod on_tables;
