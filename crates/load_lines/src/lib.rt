// What the lines of a run of calls, of a sheet's text and of an answer share: words as fields, the two names of a first line, the numbers of a load
// and those of an effect.
#![tactic(auto)]

mod load_writer;
mod names;
mod reading;

pub use load_writer::{numbers_of, write_effect, write_load};
pub use names::{Names, names_fields, word_field};
pub use reading::load_line;
