// The names of the norms.
ghost use Rattle.norm.specs.Words.{norm_word, norm_words};

use words::Word;

#[derive(Clone, Copy, PartialEq, Eq, Debug)]
pub enum NormName {
    // SP20
    Sp20,
    // SNIP85
    Snip85,
}

impl Word for NormName {
    ghost word_of = { norm_word };

    ghost lawful = { norm_words };

    fn word(self) -> &'static str {
        match self {
            NormName::Sp20 => "SP20",
            NormName::Snip85 => "SNIP85",
        }
    }

    fn from_word(text: &[u8]) -> Option<NormName> {
        match text {
            b"SP20" => Some(NormName::Sp20),
            b"SNIP85" => Some(NormName::Snip85),
            _ => None,
        }
    }
}
