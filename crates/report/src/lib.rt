// The report of a sheet: the worst basic and the worst special combination.
#![tactic(auto)]

mod reports;

pub use reports::write_report;
