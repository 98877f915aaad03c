// Effects of loads: values that are added, multiplied, compared and written.
#![tactic(auto)]

mod integers;
mod moments;
mod names;
mod newtons;
mod orders;
mod readings;
mod sums;
#[cfg(test)]
mod tests;
mod traits;

pub use moments::NM;
pub use names::EffectName;
pub use newtons::N;
pub use orders::{at_most, larger};
pub use readings::effect_of;
pub use sums::{multiple_if, sum_all};
pub use traits::{Effect, Written};
