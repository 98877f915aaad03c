// The larger of two values by their effects.
ghost use Rattle.std.specs.Fn.{FnReturnsAt};
ghost use Rattle.questions.specs.Larger.{LargerBy};

use effect::{Effect, at_most};

// The larger of two, where there are two; the first where their effects are equal.
pub(crate) fn larger_by<E: Effect, T: Copy, F: Fn(&T) -> E>(
    effect: F,
    a: Option<T>,
    b: Option<T>,
) -> Option<T>
    requires { F.IsAlwaysCallable effect }
    ensures { LargerBy E.Effect.means (FnReturnsAt F.Fn effect) a b result }
{
    let (Some(p), Some(q)) = (&a, &b) else {
        return a.or(b);
    };
    let first = effect(p);
    let second = effect(q);
    if at_most(second, first) { a } else { b }
}
