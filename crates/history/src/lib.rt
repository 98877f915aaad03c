// The whole history of a sheet: opened blank, and then given calls in any number and order.
#![tactic(auto)]

mod asking;
mod basic_only;
mod calls;
mod logs;
mod notes;
mod outcomes;
mod replays;
mod runs;
mod worst;

pub use asking::compare;
pub use basic_only::perform_basic;
pub use calls::{BasicCall, Call};
pub use logs::{Log, Turn};
pub use outcomes::Outcome;
pub use replays::replay;
pub use runs::perform;
pub use worst::{worst_basic, worst_special};
