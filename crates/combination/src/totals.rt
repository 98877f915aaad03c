// What a choice comes to.
ghost use Rattle.norm.specs.Percentages.{Percentages};
ghost use Rattle.combination.specs.Choices.{lines_of};
ghost use Rattle.combination.specs.Combined.{Combined};
ghost use Rattle.combination.specs.Computing.{AskedFor};

use crate::choice::{Choice, Picked};
use crate::percents::{Percents, Table};
use effect::Effect;
use loads::Kind;
use norm::{Norm, Taken, Term};

// The sum of what the records contribute, by a table that was asked of any norm.
fn sum_contributions<E: Effect>(table: &Table, choice: &Choice<E>) -> E
    ensures { (norm : Percentages) → AskedFor norm (lines_of choice.now) table.now → Combined E.Effect.means norm choice.now.records.now choice.now.picks.now result }
{
    let mut sum = E::zero();
    for (of, pick) in choice.records.iter().zip(choice.picks) {
        sum = sum.sum(Picked { of, pick: *pick }.contribution(table));
    }
    sum
}

impl<'a, E> Choice<'a, E> {
    // The percentages of a norm for the numbers that it takes. For a special combination the norm is asked as `InSpecial`.
    pub fn table<M: Norm>(&self, norm: &M) -> Table
        ensures { AskedFor (M.Norm.percentages norm.now) (lines_of self.now) result }
    {
        let taken = Taken {
            long: self.count(Kind::LongTerm, None),
            short: self.count(Kind::ShortTerm, None),
        };
        Table {
            long: Percents::of(norm, Term::Long, taken),
            short: Percents::of(norm, Term::Short, taken),
        }
    }
}

impl<'a, E: Effect> Choice<'a, E> {
    // What it comes to under a norm, in units of 0.00000001; left free where the records break the rules.
    // For a special combination the norm is asked as `InSpecial`.
    pub fn comes_to<M: Norm>(&self, norm: &M) -> E
        ensures { Combined E.Effect.means (M.Norm.percentages norm.now) self.now.records.now self.now.picks.now result }
    {
        sum_contributions(&self.table(norm), self)
    }
}
