// A sheet of the loads on one section: records are entered, altered and struck off.
#![tactic(auto)]

mod changes;
mod checks;
mod groups;
mod store;
#[cfg(test)]
mod tests;

pub use changes::{Change, Entry};
pub use store::Sheet;
