// The order of any effect type.
ghost use Rattle.effect.specs.Orders.{Ordered, Compared, LargerOf};

use crate::traits::Effect;
use std::cmp::Ordering;

// How a and b compare, with what the laws give of that.
fn ordered<E: Effect>(a: E, b: E) -> Ordering
    ensures { Ordered E.means a b result }
{
    a.compare(b)
}

// Whether a is at most b.
pub fn at_most<E: Effect>(a: E, b: E) -> bool
    ensures { Compared E.means a b result }
{
    ordered(a, b).is_le()
}

// The larger of two effects.
pub fn larger<E: Effect>(a: E, b: E) -> E
    ensures { LargerOf E.means a b result }
{
    match ordered(a, b) {
        Ordering::Less => b,
        _ => a,
    }
}
