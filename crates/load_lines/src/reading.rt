// Reading the numbers of a load, up to the line end.
ghost use Rattle.lines.specs.Reading.{Anything, Reads};
ghost use Rattle.load_lines.specs.Loads.{LegibleEffect, LegibleLoad, effect_end, load_end};

use effect::Written;
use lines::token::Tokens;
use loads::Load;

// The numbers of an effect, each after one blank, and the line end.
// Kept: 4 places, the most that an effect may have to be read, since an array of `E::NUMBERS` can't be written and reading has no heap.
fn effect_line<E: Written>(tokens: &mut Tokens) -> Option<E>
    ensures { Reads (LegibleEffect E.Written.writes) (effect_end E.Written.writes) Anything tokens.old result tokens.new }
{
    let mut numbers = [0i64; 4];
    let part = numbers.get_mut(..E::count())?;
    tokens.fields_into(part)?;
    tokens.line_end()?;
    Some(E::from_numbers(part))
}

// The numbers of a load, each after one blank, its effect and the line end.
pub fn load_line<E: Written>(tokens: &mut Tokens) -> Option<Load<E>>
    ensures { Reads (LegibleLoad E.Written.writes) (load_end E.Written.writes) Anything tokens.old result tokens.new }
{
    let fields = tokens.fields::<6>()?;
    let [group, upper, lower, class, area, storeys] = fields;
    let effect = effect_line::<E>(tokens)?;
    Some(Load {
        group,
        upper,
        lower,
        class,
        area,
        storeys,
        effect,
    })
}
