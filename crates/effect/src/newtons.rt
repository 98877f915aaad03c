// The effect type N.
ghost use Rattle.effect.specs.Models.{forces, one_number};
ghost use Rattle.effect.specs.ForceLaws.{force_laws, force_notation};

use crate::integers::{at, scaled};
use crate::traits::{Effect, Written};
use std::cmp::Ordering;

// A force in newtons.
#[derive(Clone, Copy, PartialEq, Eq, PartialOrd, Ord, Debug)]
pub struct N {
    pub force: i64,
}

impl Effect for N {
    ghost means = { forces };

    ghost lawful = { force_laws };

    fn zero() -> N {
        N { force: 0 }
    }

    fn sum(self, other: N) -> N {
        N {
            force: self.force.wrapping_add(other.force),
        }
    }

    fn multiple(self, p: u64) -> N {
        let force = scaled(self.force, p);
        N { force }
    }

    fn compare(self, other: N) -> Ordering {
        self.cmp(&other)
    }

    fn reach(self) -> u64 {
        self.force.unsigned_abs()
    }
}

impl Written for N {
    ghost writes = { one_number };

    const NUMBERS: usize = 1;

    ghost legible = { force_notation };

    fn count() -> usize {
        Self::NUMBERS
    }

    fn from_numbers(numbers: &[i64]) -> N {
        N {
            force: at(numbers, 0),
        }
    }

    fn number(self, place: usize) -> i64 {
        match place {
            0 => self.force,
            _ => 0,
        }
    }
}
