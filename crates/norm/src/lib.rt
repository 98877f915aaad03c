// Norms: the percentage at which a load counts in a combination.
#![tactic(auto)]

pub use names::NormName;
pub use percentages::{InSpecial, Norm, SpecialNorm};
pub use roles::{NoRole, Role};
pub use snip_85::Snip85;
pub use sp_20::Sp20;
pub use taken::Taken;
pub use terms::Term;

mod names;
mod percentages;
mod roles;
mod snip_85;
mod sp_20;
mod taken;
mod terms;
#[cfg(test)]
mod tests;
