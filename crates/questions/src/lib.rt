// The two questions to a list of loads: the worst basic and the worst special combination.
#![tactic(auto)]

mod choice;
mod groups;
mod join;
mod known;
mod larger;
mod pair;
mod part;
mod percents;
mod permanent;
mod question;
mod rated;
mod row;
mod table;
mod weights;
mod worst;

pub use question::{basic, special};
