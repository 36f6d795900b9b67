// Tables of abstract distances: estimates, the lower-bound test.
#![tactic(auto)]

pub mod by_sides;
pub mod edges;
pub mod estimates;
pub mod lower_bound;
