// The lines of a run of calls on a sheet: its first line, the calls and the records.
#![tactic(auto)]

mod change;
mod entry;
mod header;
mod names;
mod record_line;
#[cfg(test)]
mod tests;

pub use change::{arguments, read_change};
pub use header::{Header, read_header};
pub use names::ChangeName;
pub use record_line::RecordLine;
