// Cutting the text into tokens.
ghost use Rattle.std.specs.Prelude.{◌≡◌, ◌<◌, [], ◌∷◌, length};
ghost use Rattle.lines.specs.Lexing.{Finished, Made, Next, Stepped, rest};
ghost use Rattle.lines.specs.Lines.{field, gap, lexeme, newlines};
ghost use Rattle.std.specs.Iterator.{at_most};

use crate::cursor::starts_blank;
use crate::token::{Place, Token, Tokens};

// How many bytes stand before the first blank or line end.
fn field_len(bytes: &[u8]) -> usize
    ensures { result ≡ length (field bytes.now) }
{
    bytes
        .iter()
        .position(|b| *b == b' ' || *b == b'\n')
        .unwrap_or(bytes.len())
}

// How many bytes stand before the first token: one where a blank stands there.
fn gap_len(bytes: &[u8]) -> usize
    ensures { result ≡ length (gap bytes.now) }
{
    usize::from(starts_blank(bytes))
}

// The length of the first token's text.
fn lexeme_len(bytes: &[u8]) -> usize
    ensures { result ≡ length (lexeme bytes.now) }
{
    match bytes {
        [] => 0,
        [b'\n', ..] => 1,
        [b' ', rest @ ..] => field_len(rest),
        _ => field_len(bytes),
    }
}

fn line_ends(byte: u8) -> usize
    ensures { result ≡ newlines (byte ∷ []) }
{
    usize::from(byte == b'\n')
}

fn token<'a>(bytes: &'a [u8], place: Place) -> Token<'a>
    ensures { Made bytes.now place result }
{
    match bytes {
        [b'\n', ..] => Token::LineEnd(bytes, place),
        [b'0'..=b'9' | b'-', ..] => Token::Number(bytes, place),
        _ => Token::Word(bytes, place),
    }
}

impl<'a> Tokens<'a> {
    // The token at the cursor, or after the one blank there; the cursor goes past it.
    fn step(&mut self) -> Token<'a>
        requires { 0 < length (rest self.old) }
        ensures { Stepped self.old result self.new }
    {
        let left = self.left();
        let start = self.at + gap_len(left);
        let end = start + lexeme_len(left);
        let place = Place {
            offset: start,
            line: self.line,
        };
        self.line += line_ends(left[0]);
        self.at = end;
        token(&self.text[start..end], place)
    }

    // The cursor goes to the end of the text, so that nothing is left.
    pub fn skip_rest(&mut self)
        ensures { Finished self.old self.new }
    {
        while self.next().is_some() {}
    }
}

// The next token, which the cursor goes past; nothing at the end of the text.
impl<'a> Iterator for Tokens<'a> {
    type Item = Token<'a>;

    ghost next_gives = { Next };

    ghost remaining = { λ s. at_most (length (rest s)) };

    fn next(&mut self) -> Option<Token<'a>> {
        if self.is_at_end() {
            return None;
        }
        Some(self.step())
    }

    fn size_hint(&self) -> (usize, Option<usize>) {
        (0, None)
    }
}
