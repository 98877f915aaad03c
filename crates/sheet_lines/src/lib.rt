// The lines of a sheet's text: the names, the counts of the kinds, and a body for each record.
#![tactic(auto)]

mod bodies;
mod counts;
mod fault;
mod heading;
#[cfg(test)]
mod tests;

pub use bodies::read_body;
pub use counts::Counts;
pub use fault::{Layer, TextFault};
pub use heading::{read_counts, read_names};
