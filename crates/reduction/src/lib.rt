// The code of rules 1, 3 and 4, and what is kept of rows between their looks. Each answer is an equation to its definition in the crate
// `rules`; what a function asks of numbers is a record of specs/.
#![tactic(auto)]

pub mod candidates;
pub mod columns;
pub mod lowest;
pub mod reduced;
pub mod rows;
