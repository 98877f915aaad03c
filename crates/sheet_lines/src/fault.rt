// Why a text is refused.
ghost use Rattle.std.specs.Prelude.{◌≡◌, Some};
ghost use Rattle.sheet_lines.specs.Faults.{fault_of, in_line, text_fault_text};

use lines::fault::Fault;
use refusals::Refusal;
use std::fmt;

// Where a refusal comes from.
#[derive(Clone, Copy, Debug, PartialEq)]
pub enum Layer {
    // a line is not of the form
    Reading,
    // the sheet refuses an entry
    Sheet,
    // the output is too long
    Writing,
}

// A refusal with its line, counted from 1, or 0 where it is of no line, and where it comes from.
// Kept: line 0 stands for no line, since every fault is printed with a line.
#[derive(Clone, Copy, Debug, PartialEq)]
pub struct TextFault {
    pub fault: Fault,
    pub layer: Layer,
}

impl Layer {
    // The fault of a line that this layer refuses.
    pub fn fault(self, refusal: Refusal, line: usize) -> TextFault
        ensures { result ≡ fault_of self refusal line }
    {
        TextFault {
            fault: Fault { refusal, line },
            layer: self,
        }
    }

    // An answer in which a refusal is the fault of a line.
    pub fn in_line<T>(self, answer: Result<T, Refusal>, line: usize) -> Result<T, TextFault>
        ensures { result ≡ in_line self answer line }
    {
        answer.map_err(|refusal| self.fault(refusal, line))
    }
}

impl fmt::Display for TextFault {
    ghost output = { λ x. Some (text_fault_text x) };

    fn fmt<W: fmt::Write>(&self, f: &mut fmt::Formatter<W>) -> fmt::Result {
        write!(f, "{}", self.fault)
    }
}
