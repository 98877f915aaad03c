// Reading an effect of any type.
ghost use Rattle.effect.specs.Notations.{Reads};

use crate::traits::Written;

// The effect that some numbers write, None where they are not as many as its type has.
pub fn effect_of<E: Written>(numbers: &[i64]) -> Option<E>
    ensures { Reads E.writes numbers.now result }
{
    if numbers.len() == E::count() {
        Some(E::from_numbers(numbers))
    } else {
        None
    }
}
