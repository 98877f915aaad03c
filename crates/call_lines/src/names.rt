// The words by which a line names its call.
ghost use Rattle.call_lines.specs.Names.{call_word, call_words};

use calls::ChangeName;
use combination::Question;
use words::Word;

#[derive(Clone, Copy, PartialEq, Eq, Debug)]
pub enum CallName {
    Change(ChangeName),
    Ask(Question),
}

impl Word for CallName {
    ghost word_of = { call_word };

    ghost lawful = { call_words };

    fn word(self) -> &'static str {
        match self {
            CallName::Change(name) => name.word(),
            CallName::Ask(question) => question.word(),
        }
    }

    fn from_word(text: &[u8]) -> Option<CallName> {
        // Kept: by `match`, since `map` and `or_else` are no plainer and need an answer by hand.
        match ChangeName::from_word(text) {
            Some(name) => Some(CallName::Change(name)),
            None => Question::from_word(text).map(CallName::Ask),
        }
    }
}
