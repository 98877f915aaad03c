// Writing text into a buffer that the caller lends, byte by byte and without memory of its own.
#![tactic(auto)]

mod numbers;
mod passes;
mod styles;
mod writer;

pub use passes::{Text, write_whole};
pub use styles::{Decimals, Style, Whole};
pub use writer::Writer;
