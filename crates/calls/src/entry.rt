// The arguments of a call that enters or alters a record.
ghost use Rattle.std.specs.Prelude.{true};
ghost use Rattle.lines.specs.Numeral.{Spelt};
ghost use Rattle.lines.specs.Reading.{Anything, Ends, Reads, led};
ghost use Rattle.calls.specs.Entries.{IsByte, Letter, LegibleEntry, LegibleStart, entry_end, letter_text, start_text};

use effect::Written;
use lines::token::Tokens;
use load_lines::load_line;
use sheet::Entry;

// The letter that a text of one byte is.
fn one_byte(text: &[u8]) -> Option<char>
    ensures { Spelt IsByte letter_text text.now result }
{
    match text {
        [byte] => Some(char::from(*byte)),
        _ => None,
    }
}

fn letter(tokens: &mut Tokens) -> Option<char>
    ensures { Reads Letter (led true letter_text) Ends tokens.old result tokens.new }
{
    let text = tokens.field_text(true)?;
    one_byte(text)
}

// Number and letter, each after one blank.
fn start(tokens: &mut Tokens) -> Option<(u64, char)>
    ensures { Reads LegibleStart start_text Ends tokens.old result tokens.new }
{
    let number = tokens.field()?;
    let letter = letter(tokens)?;
    Some((number, letter))
}

// All the arguments, and the line end.
pub(crate) fn entry_line<E: Written>(tokens: &mut Tokens) -> Option<Entry<E>>
    ensures { Reads (LegibleEntry E.Written.writes) (entry_end E.Written.writes) Anything tokens.old result tokens.new }
{
    let (number, letter) = start(tokens)?;
    let load = load_line::<E>(tokens)?;
    Some(Entry {
        number,
        letter,
        load,
    })
}
