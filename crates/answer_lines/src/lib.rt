// Writing the answer to a question: the effect, and then the choice, a line a record.
#![tactic(auto)]

mod answers;
mod choices;
mod sections;

pub use answers::write_answer;
