// The lines of a text that has as many numbers in each.
ghost use Rattle.std.specs.Prelude.{◌≡◌, length};
ghost use Rattle.lines.specs.Lexing.{line_at, rest};
ghost use Rattle.lines.specs.NumberLines.{Gives};
ghost use Rattle.std.specs.Iterator.{at_most};

use crate::fault::Fault;
use crate::token::Tokens;
use refusals::Refusal;

// The numbers of each line, `K` in each; a malformed line gives its fault and is the last, and what follows it is not looked at.
#[derive(Drop)]
pub struct NumberLines<'a, const K: usize> {
    pub(crate) tokens: Tokens<'a>,
}

impl<'a, const K: usize> NumberLines<'a, K> {
    pub fn new(text: &'a [u8]) -> NumberLines<'a, K>
        ensures text { rest result.tokens ≡ text.now }
        ensures line { line_at result.tokens ≡ 1 }
    {
        NumberLines {
            tokens: Tokens::new(text),
        }
    }
}

impl<'a, const K: usize> Iterator for NumberLines<'a, K> {
    type Item = Result<[u64; K], Fault>;

    ghost next_gives = { λ s r u. Gives K s.tokens r u.tokens };

    ghost remaining = { λ s. at_most (length (rest s.tokens)) };

    fn next(&mut self) -> Option<Result<[u64; K], Fault>> {
        if self.tokens.is_at_end() {
            return None;
        }
        let line = self.tokens.line();
        let Some(numbers) = self.tokens.numbers::<K>() else {
            self.tokens = Tokens::new(&[]);
            let refusal = Refusal::BodyLine;
            return Some(Err(Fault { refusal, line }));
        };
        Some(Ok(numbers))
    }

    fn size_hint(&self) -> (usize, Option<usize>) {
        (0, None)
    }
}
