// The line of a record.
ghost use Rattle.lines.specs.Reading.{ReadsLine};
ghost use Rattle.sheet_lines.specs.Bodies.{LegibleBody, body_line};

use effect::Written;
use lines::token::Tokens;
use load_lines::load_line;
use loads::Load;

// Number and load, from the start of their line; the cursor goes past its line end.
pub fn read_body<E: Written>(tokens: &mut Tokens) -> Option<(u64, Load<E>)>
    ensures { ReadsLine (LegibleBody E.Written.writes) (body_line E.Written.writes) tokens.old result tokens.new }
{
    let number = tokens.number()?;
    let load = load_line::<E>(tokens)?;
    Some((number, load))
}
