// What is asked of a list of loads.
ghost use Rattle.std.specs.Prelude.{◌≡◌, ◌≤◌};
ghost use Rattle.combination.specs.Choices.{specials};
ghost use Rattle.combination.specs.Words.{question_word, question_words};

use words::Word;

#[derive(Clone, Copy, PartialEq, Eq, Debug)]
pub enum Question {
    // a basic combination takes no special load
    Basic,
    // a special combination takes exactly one
    WithSpecial,
}

impl Question {
    // How many special loads it takes.
    pub fn specials(self) -> u64
        ensures value { result ≡ specials self }
        ensures few { result ≤ 1 }
    {
        match self {
            Question::Basic => 0,
            Question::WithSpecial => 1,
        }
    }
}

impl Word for Question {
    ghost word_of = { question_word };

    ghost lawful = { question_words };

    fn word(self) -> &'static str {
        match self {
            Question::Basic => "BASIC",
            Question::WithSpecial => "SPECIAL",
        }
    }

    fn from_word(text: &[u8]) -> Option<Question> {
        match text {
            b"BASIC" => Some(Question::Basic),
            b"SPECIAL" => Some(Question::WithSpecial),
            _ => None,
        }
    }
}
