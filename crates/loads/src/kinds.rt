// The kinds of loads, with the letters that stand for them.
ghost use Rattle.std.specs.Prelude.{◌≡◌};
ghost use Rattle.loads.specs.Letters.{letter_of, KindOf};

use refusals::Refusal;

#[derive(Clone, Copy, PartialEq, Eq, Debug)]
pub enum Kind {
    Permanent = 'P' as isize,
    LongTerm = 'L' as isize,
    ShortTerm = 'T' as isize,
    Special = 'S' as isize,
}

impl Kind {
    // The letter of this kind.
    // Kept: `kind.letter()` says at a call what `char::from(kind)` leaves out.
    pub fn letter(self) -> char
        ensures { result ≡ letter_of self }
    {
        self as u8 as char
    }
}

// The kind that a letter stands for.
impl TryFrom<char> for Kind {
    type Error = Refusal;

    ghost try_from_gives = { KindOf };

    fn try_from(letter: char) -> Result<Kind, Refusal> {
        match letter {
            'P' => Ok(Kind::Permanent),
            'L' => Ok(Kind::LongTerm),
            'T' => Ok(Kind::ShortTerm),
            'S' => Ok(Kind::Special),
            _ => Err(Refusal::KindLetter),
        }
    }
}
