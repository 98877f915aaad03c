// What an effect type is, and how its values are written.
ghost use Rattle.std.specs.Prelude.{◌≡◌, ◌+◌, ◌*◌, ◌≤◌, pos, slice_index_or};
ghost use Rattle.effect.specs.Laws.{Operations, Laws, limit};
ghost use Rattle.effect.specs.Notations.{Notation, NotationLaws};

use std::cmp::Ordering;

// An effect type: values with a sum, multiples by a whole number from 0 upward, a total order and a reach, which says how large a value is.
// Kept: `compare`, `sum` and `zero` and not bounds `Ord`, `Add` and `Default`: those would ask a type for `PartialOrd`, `Eq` and sums without a limit.
// A sum is owed while the reaches together are at most `limit`, a multiple while the multiplied reach is; beyond that what they give is left free.
pub trait Effect: Copy {
    // What the methods answer.
    ghost means: { Operations Self };

    fn zero() -> Self
        ensures { result ≡ means.nil };

    fn sum(self, other: Self) -> Self
        ensures { means.reach self + means.reach other ≤ limit → result ≡ means.plus self other };

    fn multiple(self, p: u64) -> Self
        ensures { p * means.reach self ≤ limit → result ≡ means.times p self };

    fn compare(self, other: Self) -> Ordering
        ensures { result ≡ means.order self other };

    fn reach(self) -> u64
        ensures { result ≡ means.reach self };

    // The laws that the answers keep.
    ghost lawful: { Laws means };
}

// An effect type whose values are written as numbers. Only reading and writing need it.
pub trait Written: Effect {
    // How a value is written.
    ghost writes: { Notation Self };

    // How many numbers write a value.
    const NUMBERS: usize;

    // Kept: `NUMBERS` once more as a function, since a constant has no contract and generic code knows the number by one.
    fn count() -> usize
        ensures { result ≡ writes.count };

    // The value that the numbers write.
    fn from_numbers(numbers: &[i64]) -> Self
        ensures { result ≡ writes.value numbers.now };

    // The number at a place, counted from 0; 0 past the last.
    fn number(self, place: usize) -> i64
        ensures { result ≡ slice_index_or (writes.numbers self) place (pos 0) };

    // A value and its numbers determine each other.
    ghost legible: { NotationLaws writes };
}
