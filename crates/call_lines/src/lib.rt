// The lines of a run of calls on a sheet, the questions among them, and what is said of each. Its first line and the records are as without questions.
#![tactic(auto)]

mod call;
mod names;
mod reply;
#[cfg(test)]
mod tests;

pub use call::read_call;
pub use calls::{Header, RecordLine, read_header};
pub use names::CallName;
pub use reply::Reply;
