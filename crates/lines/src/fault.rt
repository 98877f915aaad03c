// A refusal with the line of the text that has it.
ghost use Rattle.std.specs.Prelude.{Some};
ghost use Rattle.lines.specs.Faults.{fault_text};

use refusals::Refusal;
use std::fmt;

#[derive(Clone, Copy, Debug, PartialEq)]
pub struct Fault {
    pub refusal: Refusal,
    pub line: usize,
}

impl fmt::Display for Fault {
    ghost output = { λ x. Some (fault_text x) };

    fn fmt<W: fmt::Write>(&self, f: &mut fmt::Formatter<W>) -> fmt::Result {
        let line = self.line;
        write!(f, "{} LINE {line}", self.refusal)
    }
}
