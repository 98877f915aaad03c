// Where a cursor stands in its text.
ghost use Rattle.std.specs.Prelude.{◌≡◌, ◌<◌, [], length, MatchBool};
ghost use Rattle.lines.specs.Lexing.{line_at, read, rest};
ghost use Rattle.lines.specs.Lines.{begins_blank};

use crate::token::Tokens;

pub(crate) fn starts_blank(bytes: &[u8]) -> bool
    ensures { result ≡ begins_blank bytes.now }
{
    matches!(bytes, [b' ', ..])
}

impl<'a> Tokens<'a> {
    // The cursor at the start of `text`.
    pub fn new(text: &'a [u8]) -> Self
        ensures { (rest result ≡ text.now) × (read result ≡ []) }
    {
        Tokens {
            text,
            at: 0,
            line: 1,
        }
    }

    // What is left of the text.
    pub(crate) fn left(&self) -> &'a [u8]
        ensures { result.now ≡ rest self.now }
    {
        &self.text[self.at..]
    }

    // Whether nothing is left.
    pub fn is_at_end(&self) -> bool
        ensures { MatchBool result (rest self.now ≡ []) (0 < length (rest self.now)) }
    {
        self.left().is_empty()
    }

    // The line that the cursor stands in, counted from 1.
    pub fn line(&self) -> usize
        ensures { result ≡ line_at self.now }
    {
        self.line
    }

    // Whether a blank stands at the cursor.
    pub fn at_blank(&self) -> bool
        ensures { result ≡ begins_blank (rest self.now) }
    {
        starts_blank(self.left())
    }
}
