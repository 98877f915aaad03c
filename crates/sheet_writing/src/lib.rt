// Writing the text form of a sheet.
#![tactic(auto)]

mod bodies;
mod headings;
mod sheets;

pub use headings::write_names;
pub use sheets::write_sheet;
