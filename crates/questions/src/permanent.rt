// The permanent loads, each by the factor that comes to the most.
ghost use Rattle.std.specs.Prelude.{◌≡◌, if◌then◌else◌};
ghost use Rattle.combination.specs.Choices.{is_lower};
ghost use Rattle.combination.specs.Worst.{permanent as at_factor};
ghost use Rattle.questions.specs.Engine.{fixed_best};
ghost use Rattle.questions.specs.Parts.{best_factor, fixed as part_of};

use crate::rated::{RuledRecord, WeighedRecords};
use combination::Pick;
use effect::Effect;
use loads::Kind;

impl<'a, E: Effect> RuledRecord<'a, E> {
    // A permanent load at the factor of a pick.
    fn at_factor(&self, pick: Pick) -> E
        ensures { result ≡ at_factor E.means pick self.now.record.now }
    {
        let load = &self.record.load;
        load.effect.multiple(pick.factor(load) * 1_000_000)
    }

    // The factor by which a permanent load comes to the most.
    pub(crate) fn best_factor(&self) -> Pick
        ensures { result ≡ best_factor E.means self.now.record.now }
    {
        let by_lower = self.at_factor(Pick::Lower);
        let by_upper = self.at_factor(Pick::Upper);
        if by_lower.compare(by_upper).is_gt() {
            Pick::Lower
        } else {
            Pick::Upper
        }
    }

    // What the record adds if it is permanent.
    fn permanent_part(&self) -> E
        ensures { result ≡ part_of E.means self.now.record.now.kind (best_factor E.means self.now.record.now) self.now.record.now }
    {
        match self.record.kind {
            Kind::Permanent => self.at_factor(self.best_factor()),
            Kind::LongTerm | Kind::ShortTerm | Kind::Special => E::zero(),
        }
    }
}

// The sum of the permanent loads.
pub(crate) fn permanent_sum<E: Effect>(loads: &WeighedRecords<E>) -> E
    ensures { result ≡ fixed_best E.means loads.now.records.now }
{
    let mut sum = E::zero();
    for record in loads.records {
        let load = RuledRecord { record };
        sum = sum.sum(load.permanent_part());
    }
    sum
}
