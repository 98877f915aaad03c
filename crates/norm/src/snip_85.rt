// SNIP85: percentages by whether a load is taken alone, from the clause on combination factors of SNiP 2.01.07-85
// without its note on three and more short-term loads.
ghost use Rattle.norm.specs.Tables.{snip85, snip85_special};
ghost use Rattle.std.proofs.Common.{rules};

use crate::percentages::{Norm, SpecialNorm, asked_role};
use crate::taken::Taken;
use crate::terms::Term;

#[derive(Clone, Copy)]
pub struct Snip85;

impl Norm for Snip85 {
    ghost percentages = { λ _. snip85 };

    ghost ranged = { Prim.search rules };

    fn percent(&self, term: Term, role: u64, taken: Taken) -> u64 {
        match (term, asked_role(term, role, taken)) {
            (_, None) => 0,
            _ if taken.long + taken.short == 1 => 100,
            (Term::Long, _) => 95,
            (Term::Short, _) => 90,
        }
    }
}

impl SpecialNorm for Snip85 {
    ghost special = { λ _. snip85_special };

    ghost special_ranged = { Prim.search rules };

    fn special_percent(&self, term: Term, role: u64, taken: Taken) -> u64 {
        match (term, asked_role(term, role, taken)) {
            (_, None) => 0,
            (Term::Long, _) => 95,
            (Term::Short, _) => 80,
        }
    }
}
