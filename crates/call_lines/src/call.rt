// One line for each call on a sheet.
ghost use Rattle.std.specs.Prelude.{◌≡◌};
ghost use Rattle.lines.specs.Reading.{Anything, Reads, ReadsLine};
ghost use Rattle.call_lines.specs.Calls.{Legible, OfName, arguments_end, call_line};

use crate::names::CallName;
use effect::Written;
use history::Call;
use lines::token::Tokens;
use load_lines::word_field;

// What follows the call's name, and the line end.
fn arguments<E: Written>(tokens: &mut Tokens, name: CallName) -> Option<Call<E>>
    ensures { Reads (OfName E.Written.writes name) (arguments_end E.Written.writes) Anything tokens.old result tokens.new }
{
    match name {
        CallName::Change(name) => {
            let change = calls::arguments::<E>(tokens, name)?;
            Some(Call::Change(change))
        }
        CallName::Ask(question) => {
            tokens.line_end()?;
            Some(Call::Ask(question))
        }
    }
}

// The line of a call, from its start; the cursor goes past its line end.
pub fn read_call<E: Written>(tokens: &mut Tokens) -> Option<Call<E>>
    ensures { ReadsLine (Legible E.Written.writes) (call_line E.Written.writes) tokens.old result tokens.new }
{
    let name = word_field::<CallName>(tokens, false)?;
    arguments::<E>(tokens, name)
}
