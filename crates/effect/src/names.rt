// The words by which a text names the effect types.
ghost use Rattle.effect.specs.Names.{effect_word, effect_words};

use words::Word;

#[derive(Clone, Copy, PartialEq, Eq, Debug)]
pub enum EffectName {
    // N
    N,
    // NM
    Nm,
}

impl Word for EffectName {
    ghost word_of = { effect_word };

    ghost lawful = { effect_words };

    fn word(self) -> &'static str {
        match self {
            EffectName::N => "N",
            EffectName::Nm => "NM",
        }
    }

    fn from_word(text: &[u8]) -> Option<EffectName> {
        match text {
            b"N" => Some(EffectName::N),
            b"NM" => Some(EffectName::Nm),
            _ => None,
        }
    }
}
