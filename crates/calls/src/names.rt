// The words by which a line names a change.
ghost use Rattle.calls.specs.Names.{change_word, change_words};

use words::Word;

#[derive(Clone, Copy, PartialEq, Eq, Debug)]
pub enum ChangeName {
    Enter,
    Alter,
    Strike,
}

impl Word for ChangeName {
    ghost word_of = { change_word };

    ghost lawful = { change_words };

    fn word(self) -> &'static str {
        match self {
            ChangeName::Enter => "ENTER",
            ChangeName::Alter => "ALTER",
            ChangeName::Strike => "STRIKE",
        }
    }

    fn from_word(text: &[u8]) -> Option<ChangeName> {
        match text {
            b"ENTER" => Some(ChangeName::Enter),
            b"ALTER" => Some(ChangeName::Alter),
            b"STRIKE" => Some(ChangeName::Strike),
            _ => None,
        }
    }
}
