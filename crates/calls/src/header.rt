// The first line: norm, effect type and number of places.
ghost use Rattle.lines.specs.Reading.{ReadsLine};
ghost use Rattle.calls.specs.Headers.{ShortPlaces, header_line};

use lines::token::Tokens;
use load_lines::{Names, names_fields};

#[derive(Clone, Copy, Debug, PartialEq)]
pub struct Header {
    pub names: Names,
    // any number: how many places a sheet has of them is not told here
    pub places: u64,
}

// The first line, from its start; the cursor goes past its line end.
pub fn read_header(tokens: &mut Tokens) -> Option<Header>
    ensures { ReadsLine ShortPlaces header_line tokens.old result tokens.new }
{
    let names = names_fields(tokens)?;
    let places = tokens.last_field()?;
    Some(Header { names, places })
}
