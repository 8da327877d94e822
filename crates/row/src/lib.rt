// A row of at most so many values, in fixed memory.
#![tactic(auto)]

mod full;
mod row;
mod rows;

pub use full::Full;
pub use row::Row;
