// One line for each call that changes a sheet.
ghost use Rattle.std.specs.Prelude.{◌≡◌};
ghost use Rattle.lines.specs.Reading.{Anything, Reads, ReadsLine};
ghost use Rattle.calls.specs.Changes.{Legible, OfName, arguments_end, change_line};

use crate::entry::entry_line;
use crate::names::ChangeName;
use effect::Written;
use lines::token::Tokens;
use load_lines::word_field;
use sheet::Change;

// What follows the name of a change, and the line end.
pub fn arguments<E: Written>(tokens: &mut Tokens, name: ChangeName) -> Option<Change<E>>
    ensures { Reads (OfName E.Written.writes name) (arguments_end E.Written.writes) Anything tokens.old result tokens.new }
{
    // Kept: `?` in each arm, which is no longer to read than `map` with the case and needs fewer answers by hand.
    match name {
        ChangeName::Enter => {
            let entry = entry_line::<E>(tokens)?;
            Some(Change::Enter(entry))
        }
        ChangeName::Alter => {
            let entry = entry_line::<E>(tokens)?;
            Some(Change::Alter(entry))
        }
        ChangeName::Strike => {
            let number = tokens.last_field()?;
            Some(Change::Strike(number))
        }
    }
}

// The line of a change, from its start; the cursor goes past its line end.
pub fn read_change<E: Written>(tokens: &mut Tokens) -> Option<Change<E>>
    ensures { ReadsLine (Legible E.Written.writes) (change_line E.Written.writes) tokens.old result tokens.new }
{
    let name = word_field::<ChangeName>(tokens, false)?;
    arguments::<E>(tokens, name)
}
