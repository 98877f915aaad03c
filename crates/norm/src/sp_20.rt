// SP20: percentages by role, from the combination section of SP 20.13330 with the 80 of its 2011 text.
ghost use Rattle.norm.specs.Tables.{sp20, sp20_special};
ghost use Rattle.std.proofs.Common.{rules};

use crate::percentages::{Norm, SpecialNorm, asked_role};
use crate::roles::Role;
use crate::taken::Taken;
use crate::terms::Term;

#[derive(Clone, Copy)]
pub struct Sp20;

impl Norm for Sp20 {
    ghost percentages = { λ _. sp20 };

    ghost ranged = { Prim.search rules };

    fn percent(&self, term: Term, role: u64, taken: Taken) -> u64 {
        match (term, asked_role(term, role, taken)) {
            (_, None) => 0,
            (_, Some(Role::Leading)) => 100,
            (Term::Long, _) => 95,
            (Term::Short, Some(Role::Second)) => 90,
            (Term::Short, _) => 70,
        }
    }
}

impl SpecialNorm for Sp20 {
    ghost special = { λ _. sp20_special };

    ghost special_ranged = { Prim.search rules };

    fn special_percent(&self, term: Term, role: u64, taken: Taken) -> u64 {
        match (term, asked_role(term, role, taken)) {
            (_, None) => 0,
            (Term::Long, Some(Role::Leading)) => 100,
            (Term::Long, _) => 95,
            (Term::Short, _) => 80,
        }
    }
}
