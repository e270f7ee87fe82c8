// Sheets and slips as bytes: numbers, trailers, a sheet's costs, a slip. What is promised is said in specs/; nothing here knows the solver.
#![tactic(auto)]

pub mod edition;
pub mod field;
pub mod said;
pub mod slip;
pub mod trailer;
pub mod value;
