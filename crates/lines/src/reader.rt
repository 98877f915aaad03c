// Reading what a grammar asks for next: a field, a number, a line end.
ghost use Rattle.std.specs.Prelude.{true, Some, None, MatchOption};
ghost use Rattle.lines.specs.Lexing.{NoField, TakenField};
ghost use Rattle.lines.specs.Numeral.{Legible, Short, numeral};
ghost use Rattle.lines.specs.Reading.{Anything, Ends, FieldText, Reads, before, byte, itself, last_field, led};

use crate::numeral::Numeral;
use crate::token::{Token, Tokens};

impl<'a> Tokens<'a> {
    // The next token's text, where that is a field.
    fn token_text(&mut self) -> Option<&'a [u8]>
        ensures { MatchOption result (NoField self.old self.new) (λ x. TakenField self.old x.now self.new) }
    {
        match self.next()? {
            Token::Word(text, _) | Token::Number(text, _) => Some(text),
            Token::LineEnd(_, _) => None,
        }
    }

    // The text of a field that is not empty, after one blank or right here.
    // Kept: a bool, as the definition `led` has it: whether a blank stands before a field is the one thing that differs.
    pub fn field_text(&mut self, blank: bool) -> Option<&'a [u8]>
        ensures { MatchOption result (Reads FieldText (led blank itself) Ends self.old None self.new) (λ x. Reads FieldText (led blank itself) Ends self.old (Some x.now) self.new) }
    {
        if self.at_blank() != blank {
            return None;
        }
        let text = self.token_text()?;
        if text.is_empty() {
            return None;
        }
        Some(text)
    }

    // A number after one blank, or right here.
    pub(crate) fn number_after<N: Numeral>(&mut self, blank: bool) -> Option<N>
        ensures { Reads (Legible N.value) (led blank (numeral N.value)) Ends self.old result self.new }
    {
        let text = self.field_text(blank)?;
        N::from_text(text)
    }

    // A number that starts right here.
    pub fn number<N: Numeral>(&mut self) -> Option<N>
        ensures { Reads (Legible N.value) (before (numeral N.value)) Ends self.old result self.new }
    {
        self.number_after(false)
    }

    // A number after one blank.
    pub fn field<N: Numeral>(&mut self) -> Option<N>
        ensures { Reads (Legible N.value) (led true (numeral N.value)) Ends self.old result self.new }
    {
        self.number_after(true)
    }

    // The line end, right here.
    pub fn line_end(&mut self) -> Option<()>
        ensures { Reads Anything (before (byte 10)) Anything self.old result self.new }
    {
        match self.next()? {
            Token::LineEnd(_, _) => Some(()),
            _ => None,
        }
    }

    // A number after one blank, and the line end.
    pub fn last_field(&mut self) -> Option<u64>
        ensures { Reads Short last_field Anything self.old result self.new }
    {
        let number = self.field()?;
        self.line_end()?;
        Some(number)
    }
}
