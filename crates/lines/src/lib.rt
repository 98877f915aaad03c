// Reading a text of lines of fields, in tokens that borrow the text.
// Fields of a line are split by one blank, and every line ends with byte 10.
#![tactic(auto)]

pub mod cursor;
pub mod fault;
pub mod fixed;
pub mod lexer;
pub mod number_lines;
pub mod numeral;
pub mod reader;
pub mod row;
#[cfg(test)]
mod tests;
pub mod token;
