// The effect type NM.
ghost use Rattle.effect.specs.Models.{moments, two_numbers};
ghost use Rattle.effect.specs.MomentLaws.{moment_laws, moment_notation};

use crate::integers::{at, scaled};
use crate::traits::{Effect, Written};
use std::cmp::Ordering;

// An axial force with its corresponding moment, compared by force and, where the forces are equal, by moment.
#[derive(Clone, Copy, PartialEq, Eq, PartialOrd, Ord, Debug)]
pub struct NM {
    pub force: i64,
    pub moment: i64,
}

impl Effect for NM {
    ghost means = { moments };

    ghost lawful = { moment_laws };

    fn zero() -> NM {
        NM {
            force: 0,
            moment: 0,
        }
    }

    fn sum(self, other: NM) -> NM {
        NM {
            force: self.force.wrapping_add(other.force),
            moment: self.moment.wrapping_add(other.moment),
        }
    }

    fn multiple(self, p: u64) -> NM {
        NM {
            force: scaled(self.force, p),
            moment: scaled(self.moment, p),
        }
    }

    fn compare(self, other: NM) -> Ordering {
        self.cmp(&other)
    }

    fn reach(self) -> u64 {
        self.force.unsigned_abs().max(self.moment.unsigned_abs())
    }
}

impl Written for NM {
    ghost writes = { two_numbers };

    const NUMBERS: usize = 2;

    ghost legible = { moment_notation };

    fn count() -> usize {
        Self::NUMBERS
    }

    fn from_numbers(numbers: &[i64]) -> NM {
        NM {
            force: at(numbers, 0),
            moment: at(numbers, 1),
        }
    }

    fn number(self, place: usize) -> i64 {
        match place {
            0 => self.force,
            1 => self.moment,
            _ => 0,
        }
    }
}
