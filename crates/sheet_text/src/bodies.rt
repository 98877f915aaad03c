// The bodies of a text, read and entered one by one until the first fault.
ghost use Rattle.std.specs.Prelude.{◌≡◌, [], ◌∷◌, replicate};
ghost use Rattle.lines.specs.Lexing.{line_at, rest};
ghost use Rattle.sheet.specs.Held.{held, places_of};
ghost use Rattle.sheet_lines.specs.Heading.{due};
ghost use Rattle.sheet_text.specs.Blocks.{Block, entered_of};
ghost use Rattle.sheet_text.specs.Texts.{Bodies};

use effect::Written;
use lines::token::Tokens;
use loads::Kind;
use refusals::Refusal;
use sheet::{Entry, Sheet};
use sheet_lines::{Counts, Layer, TextFault, read_body};

// Enters the body of the next line as a record of this kind.
// Kept: tokens and sheet are two parameters: the one is lent by who holds the text, the other is what the text makes.
fn enter_line<E: Written>(
    tokens: &mut Tokens,
    kind: Kind,
    sheet: &mut Sheet<E>,
) -> Result<(), TextFault>
    ensures block { Block E.Effect.means E.Written.writes (places_of sheet.old) (kind ∷ []) tokens.old (held sheet.old) result tokens.new (held sheet.new) }
    ensures places { places_of sheet.new ≡ places_of sheet.old }
{
    let line = tokens.line();
    let Some((number, load)) = read_body::<E>(tokens) else {
        return Err(Layer::Reading.fault(Refusal::BodyLine, line));
    };
    let letter = kind.letter();
    let entry = Entry {
        number,
        letter,
        load,
    };
    Layer::Sheet.in_line(sheet.enter(entry), line)
}

// Enters the bodies of one kind.
fn enter_kind<E: Written>(
    tokens: &mut Tokens,
    kind: Kind,
    count: u64,
    sheet: &mut Sheet<E>,
) -> Result<(), TextFault>
    ensures block { Block E.Effect.means E.Written.writes (places_of sheet.old) (replicate count kind) tokens.old (held sheet.old) result tokens.new (held sheet.new) }
    ensures places { places_of sheet.new ≡ places_of sheet.old }
{
    for _ in 0..count {
        enter_line(tokens, kind, sheet)?;
    }
    Ok(())
}

// Enters the bodies, kind after kind. A line after the last of them is a surplus line.
// Kept: four calls show the order of the kinds, and each count has a field of its own name.
pub(crate) fn read_bodies<E: Written>(
    tokens: &mut Tokens,
    counts: Counts,
    sheet: &mut Sheet<E>,
) -> Result<(), TextFault>
    ensures bodies { Bodies E.Effect.means E.Written.writes (places_of sheet.old) (held sheet.old) (line_at tokens.old) (due counts) (rest tokens.old) (entered_of result (held sheet.new)) }
    ensures places { places_of sheet.new ≡ places_of sheet.old }
{
    enter_kind(tokens, Kind::Permanent, counts.permanent, sheet)?;
    enter_kind(tokens, Kind::LongTerm, counts.long_term, sheet)?;
    enter_kind(tokens, Kind::ShortTerm, counts.short_term, sheet)?;
    enter_kind(tokens, Kind::Special, counts.special, sheet)?;
    if !tokens.is_at_end() {
        return Err(Layer::Reading.fault(Refusal::BodyLine, tokens.line()));
    }
    Ok(())
}
