// Combinations of loads: choices, which of them are admissible, what they come to, and which is the worst.
#![tactic(auto)]

mod admissible;
mod answers;
mod choice;
mod contribution;
mod examples;
mod percents;
mod picks;
mod questions;
#[cfg(test)]
mod tests;
mod totals;

pub use answers::Answer;
pub use choice::{Choice, Picked};
pub use examples::{TwoLists, entered_two_ways};
pub use percents::{Percents, Table};
pub use picks::Pick;
pub use questions::Question;
