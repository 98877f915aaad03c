// The loads on one section, as records.
#![tactic(auto)]

mod kinds;
mod records;

pub use kinds::Kind;
pub use records::{Load, Record};
