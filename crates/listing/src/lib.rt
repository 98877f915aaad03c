// What the list programs say of each line.
#![tactic(auto)]

mod factors;
mod norm_tables;
mod take_down;

pub use factors::{NoFactor, Reply, case_factor, line_factor};
pub use norm_tables::{Combination, NormRow, norm_rows};
pub use take_down::{Section, read_column};
