// The first two lines: the names, and the counts of the kinds.
ghost use Rattle.std.specs.Prelude.{◌≡◌, true, decimal, Decides};
ghost use Rattle.lines.specs.Reading.{Anything, Ends, Reads, ReadsLine, led};
ghost use Rattle.sheet_lines.specs.Heading.{Few, LegibleCounts, count_text, counts_line, kind_text, names_line};

use crate::counts::Counts;
use lines::token::Tokens;
use load_lines::{Names, names_fields};
use loads::Kind;

// The line of the names, from its start; the cursor goes past its line end.
pub fn read_names(tokens: &mut Tokens) -> Option<Names>
    ensures { ReadsLine Anything names_line tokens.old result tokens.new }
{
    let names = names_fields(tokens)?;
    tokens.line_end()?;
    Some(names)
}

// Whether a text is the letter of a kind.
fn is_letter(text: &[u8], kind: Kind) -> bool
    ensures { Decides result (text.now ≡ kind_text kind tt) }
{
    matches!(text, [byte] if *byte as char == kind.letter())
}

// The letter of a kind, after one blank or right here.
// Kept: `blank` as in `field_text`.
fn letter(tokens: &mut Tokens, blank: bool, kind: Kind) -> Option<()>
    ensures { Reads Anything (led blank (kind_text kind)) Ends tokens.old result tokens.new }
{
    let text = tokens.field_text(blank)?;
    is_letter(text, kind).then_some(())
}

// A number of at most 99, after one blank.
fn few(tokens: &mut Tokens) -> Option<u64>
    ensures { Reads Few (led true decimal) Ends tokens.old result tokens.new }
{
    tokens.field().filter(|number| *number <= 99)
}

// The letter of a kind, after one blank or right here, and its count.
// Kept: `blank` as in `field_text`.
fn count(tokens: &mut Tokens, blank: bool, kind: Kind) -> Option<u64>
    ensures { Reads Few (count_text blank kind) Ends tokens.old result tokens.new }
{
    letter(tokens, blank, kind)?;
    few(tokens)
}

// The line of the counts, from its start; the cursor goes past its line end.
// Kept: each count has a field of its own name, and no blank stands before the first; a loop over the kinds would need places and a flag.
pub fn read_counts(tokens: &mut Tokens) -> Option<Counts>
    ensures { ReadsLine LegibleCounts counts_line tokens.old result tokens.new }
{
    let permanent = count(tokens, false, Kind::Permanent)?;
    let long_term = count(tokens, true, Kind::LongTerm)?;
    let short_term = count(tokens, true, Kind::ShortTerm)?;
    let special = count(tokens, true, Kind::Special)?;
    tokens.line_end()?;
    Some(Counts {
        permanent,
        long_term,
        short_term,
        special,
    })
}
