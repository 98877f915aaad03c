// What a norm is: the percentage at which a load counts in a combination.
ghost use Rattle.std.specs.Prelude.{◌≡◌};
ghost use Rattle.norm.specs.Percentages.{AskedRole, Percentages, Ranged};

use crate::roles::Role;
use crate::taken::Taken;
use crate::terms::Term;

// The percentage of a load in a combination, by its term, the number of its role (1 leading, 2 second, 3 other) and
// the numbers of loads taken. It depends on the norm's value and these alone; outside the ranges it is 0.
// Kept: the role is a number, since a norm answers 0 for one that is none, and a `Role` there would ask more of its callers.
pub trait Norm {
    ghost percentages: { Self → Percentages };

    fn percent(&self, term: Term, role: u64, taken: Taken) -> u64
        ensures { result ≡ percentages self.now term role taken.long taken.short };

    ghost ranged: { (n : Self) → Ranged (percentages n) };
}

// A norm that also answers for combinations with a special load, under the same rules.
pub trait SpecialNorm: Norm {
    ghost special: { Self → Percentages };

    fn special_percent(&self, term: Term, role: u64, taken: Taken) -> u64
        ensures { result ≡ special self.now term role taken.long taken.short };

    ghost special_ranged: { (n : Self) → Ranged (special n) };
}

// The second answer of a norm, as a norm of its own: what is said of any norm's basic combinations holds of the special ones too.
#[derive(Clone, Copy)]
pub struct InSpecial<'a, M>(pub &'a M);

impl<'a, M: SpecialNorm> Norm for InSpecial<'a, M> {
    ghost percentages = { λ n. M.SpecialNorm.special n.0.now };

    ghost ranged = { λ n. M.SpecialNorm.special_ranged n.0.now };

    fn percent(&self, term: Term, role: u64, taken: Taken) -> u64 {
        self.0.special_percent(term, role, taken)
    }
}

// The role of this number, where a norm may be asked for it.
#[tactic(auto, using(crate::proofs::Inside::no_role_inside))]
pub(crate) fn asked_role(term: Term, role: u64, taken: Taken) -> Option<Role>
    ensures { AskedRole term role taken.long taken.short result }
{
    match Role::try_from(role) {
        Ok(asked) if role <= taken.of(term) && taken.long <= 32 && taken.short <= 32 => Some(asked),
        _ => None,
    }
}
