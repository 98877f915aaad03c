// Reading the text form of a sheet: the names, the counts, and then the bodies, which are entered one by one.
#![tactic(auto)]

mod bodies;
mod sheets;
mod start;
#[cfg(test)]
mod tests;

pub use sheets::{read_sheet, read_text};
pub use start::text_names;
