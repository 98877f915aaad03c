// The percentages of a norm for the numbers that a choice takes.
ghost use Rattle.std.specs.Prelude.{◌≡◌};
ghost use Rattle.combination.specs.Choices.{number_or_0};
ghost use Rattle.combination.specs.Computing.{Asked, by_role};

use norm::{Norm, Role, Taken, Term};

// The percentages of the three roles of a term.
#[derive(Clone, Copy, PartialEq, Eq, Debug)]
pub struct Percents {
    pub leading: u64,
    pub second: u64,
    pub other: u64,
}

// Those of both terms.
#[derive(Clone, Copy, PartialEq, Eq, Debug)]
pub struct Table {
    pub long: Percents,
    pub short: Percents,
}

impl Percents {
    // Those of a norm for one term and the numbers taken.
    pub(crate) fn of<M: Norm>(norm: &M, term: Term, taken: Taken) -> Percents
        ensures { Asked (M.Norm.percentages norm.now) term taken.long taken.short result }
    {
        Percents {
            leading: norm.percent(term, Role::Leading.number(), taken),
            second: norm.percent(term, Role::Second.number(), taken),
            other: norm.percent(term, Role::Other.number(), taken),
        }
    }

    // The percentage for a role, 0 for none.
    pub(crate) fn at(self, role: Option<Role>) -> u64
        ensures { result ≡ by_role self (number_or_0 role) }
    {
        match role {
            Some(Role::Leading) => self.leading,
            Some(Role::Second) => self.second,
            Some(Role::Other) => self.other,
            None => 0,
        }
    }
}
