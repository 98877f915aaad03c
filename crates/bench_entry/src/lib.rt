// The two questions as functions that Rust and C can call, to be timed beside plain Rust.
#![tactic(auto)]

mod entries;
mod forces;

pub use entries::Entry;
pub use forces::{bench_entry_basic, bench_entry_special};
