// Sums and multiples at any effect type.
ghost use Rattle.std.specs.Prelude.{◌≤◌};
ghost use Rattle.effect.specs.Laws.{limit};
ghost use Rattle.effect.specs.Sums.{reaches, Summed, Counted};

use crate::traits::Effect;

// The sum of all effects of a slice, while their reaches together are within the limit; beyond it what is given is left free.
pub fn sum_all<E: Effect>(effects: &[E]) -> E
    ensures { reaches E.means effects.now ≤ limit → Summed E.means effects.now result }
{
    let mut sum = E::zero();
    for x in effects {
        sum = sum.sum(*x);
    }
    sum
}

// p times an effect, while that is within the limit; zero where it is not taken, with no p.
pub fn multiple_if<E: Effect>(effect: E, taken: Option<u64>) -> E
    ensures { Counted E.means effect taken result }
{
    match taken {
        Some(p) => effect.multiple(p),
        None => E::zero(),
    }
}
