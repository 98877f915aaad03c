// The length of a text, and its first line.
ghost use Rattle.sheet_text.specs.Starts.{Headed, NamesOf};

use lines::token::Tokens;
use load_lines::Names;
use refusals::Refusal;
use sheet_lines::{Layer, TextFault, read_names};

const LONGEST: usize = 4_096;

// The names in the first line of a text of so many bytes. The cursor goes past that line.
pub(crate) fn read_heading(tokens: &mut Tokens, bytes: usize) -> Result<Names, TextFault>
    ensures { Headed bytes tokens.old result tokens.new }
{
    let fault = Layer::Reading.fault(Refusal::Header, 1);
    if bytes > LONGEST {
        return Err(fault);
    }
    read_names(tokens).ok_or(fault)
}

// The names in the first line of a text, which say how the rest is to be read.
pub fn text_names(text: &[u8]) -> Result<Names, TextFault>
    ensures { NamesOf text.now result }
{
    read_heading(&mut Tokens::new(text), text.len())
}
