// From the text of a sheet to its report.
#![tactic(auto)]

mod memory;
mod reports;
#[cfg(test)]
mod tests;

pub use memory::Memory;
pub use reports::{report_as, report_text};
