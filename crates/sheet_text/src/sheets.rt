// A sheet as its text describes it.
ghost use Rattle.std.specs.Prelude.{vec_capacity};
ghost use Rattle.lines.specs.Lexing.{line_at, rest};
ghost use Rattle.sheet_text.specs.Texts.{ReadFrom, SheetText, TextOf, WholeOf, WholeText, places_in};

use crate::bodies::read_bodies;
use crate::start::read_heading;
use effect::Written;
use lines::token::Tokens;
use loads::Record;
use refusals::Refusal;
use sheet::Sheet;
use sheet_lines::{Layer, TextFault, read_counts};

// The sheet of a text whose names are read: the next line has the counts, and the bodies follow up to the end of the text.
// Its places are the smallest of the number asked for, the capacity of the memory, and 32.
pub fn read_sheet<E: Written>(
    tokens: &mut Tokens,
    memory: Vec<Record<E>>,
    places: usize,
) -> Result<Sheet<E>, TextFault>
    ensures { ReadFrom (SheetText E.Effect.means E.Written.writes (places_in places (vec_capacity memory)) (line_at tokens.old) (rest tokens.old)) (TextOf E.Written.writes (rest tokens.old)) (places_in places (vec_capacity memory)) result }
{
    let line = tokens.line();
    let Some(counts) = read_counts(tokens) else {
        return Err(Layer::Reading.fault(Refusal::Header, line));
    };
    let mut sheet = Sheet::open(memory, places);
    read_bodies(tokens, counts, &mut sheet)?;
    Ok(sheet)
}

// The sheet of a whole text. Its effects are read as the type `E`, which the names in the first line should name: `text_names` gives them.
pub fn read_text<E: Written>(
    text: &[u8],
    memory: Vec<Record<E>>,
    places: usize,
) -> Result<Sheet<E>, TextFault>
    ensures { ReadFrom (WholeText E.Effect.means E.Written.writes (places_in places (vec_capacity memory)) text.now) (WholeOf E.Written.writes text.now) (places_in places (vec_capacity memory)) result }
{
    let mut tokens = Tokens::new(text);
    read_heading(&mut tokens, text.len())?;
    read_sheet(&mut tokens, memory, places)
}
