// The names of a norm and of an effect type, at the start of a line.
ghost use Rattle.lines.specs.Reading.{Anything, Ends, Reads, led};
ghost use Rattle.load_lines.specs.Names.{names_text};

use effect::EffectName;
use lines::token::Tokens;
use norm::NormName;
use words::Word;

#[derive(Clone, Copy, Debug, PartialEq)]
pub struct Names {
    pub norm: NormName,
    pub effect: EffectName,
}

// The case of an enum whose word stands after one blank, or right here.
// Kept: `blank` as in `field_text`, whose answer this only looks up.
pub fn word_field<T: Word>(tokens: &mut Tokens, blank: bool) -> Option<T>
    ensures { Reads Anything (led blank T.word_of) Ends tokens.old result tokens.new }
{
    let text = tokens.field_text(blank)?;
    T::from_word(text)
}

// The name of a norm right here, and of an effect type after one blank.
pub fn names_fields(tokens: &mut Tokens) -> Option<Names>
    ensures { Reads Anything names_text Ends tokens.old result tokens.new }
{
    let norm = word_field::<NormName>(tokens, false)?;
    let effect = word_field::<EffectName>(tokens, true)?;
    Some(Names { norm, effect })
}
