// The worst candidate of a question.
ghost use Rattle.std.specs.Prelude.{◌+◌, ◌≤◌};
ghost use Rattle.loads.specs.declared.kinds.Kind.TheVariants.{ShortTerm};
ghost use Rattle.questions.specs.Engine.{Answered, Covers, Limits, Prepared, Since};
ghost use Rattle.questions.specs.Items.{full, items_of};
ghost use Rattle.questions.specs.Promises.{OneKind};
ghost use Rattle.questions.specs.Tables.{TakesAtMost};

use crate::groups::Wanted;
use crate::known::Known;
use crate::larger::larger_by;
use crate::pair::{Candidate, Tables};
use crate::percents::percents_for;
use crate::permanent::permanent_sum;
use crate::rated::{Rated, WHOLE, WeighedRecords};
use combination::Question;
use effect::Effect;
use loads::Kind;
use norm::{Norm, Taken, Term};

// What is known before any number is tried.
// Kept: `Prepared` stays a clause: as an invariant it would need the records in `Tables` too, beside those of `Search`.
fn tables_of<E: Effect>(loads: &WeighedRecords<E>) -> Tables<E>
    ensures { Prepared E.means loads.now.records.now result }
{
    let whole = Rated {
        loads,
        percents: WHOLE,
    };
    let mut special = Known::of(loads, Kind::Special);
    special.turn_to(&whole, 1);
    Tables {
        permanent: permanent_sum(loads),
        long: Known::of(loads, Kind::LongTerm),
        short: Known::of(loads, Kind::ShortTerm),
        special,
    }
}

// A question to a list of records, under a norm.
#[derive(Drop)]
pub(crate) struct Search<'a, E: Effect, M> {
    pub norm: &'a M,
    pub question: Question,
    pub loads: &'a WeighedRecords<'a, E>,
}

impl<'a, E: Effect, M: Norm> Search<'a, E, M> {
    // The most records of a kind that any choice takes.
    fn most_of(&self, known: &Known) -> u64
        ensures bound { TakesAtMost (items_of E.Effect.means full self.now.loads.now.records.now) known.now.wanted result }
        ensures few { result ≤ 32 }
    {
        let wanted = Wanted {
            loads: self.loads,
            flags: &known.wanted,
        };
        wanted.group_count() as u64
    }

    // One pair of numbers more.
    // Kept: that the numbers are at most 32 stays a clause: a `Taken` may hold any numbers, since a norm answers to each.
    fn step(
        &self,
        tables: &mut Tables<E>,
        best: Option<Candidate<E>>,
        taken: Taken,
    ) -> Option<Candidate<E>>
        requires prepared { Prepared E.Effect.means self.now.loads.now.records.now tables.old }
        requires longs { taken.long ≤ 32 }
        requires shorts { taken.short ≤ 32 }
        requires covers { OneKind self.now.loads.now.records.now → Covers E.Effect.means (M.Norm.percentages self.now.norm.now) self.now.question self.now.loads.now.records.now (Since taken.long (taken.short + 1)) best }
        ensures prepared { Prepared E.Effect.means self.now.loads.now.records.now tables.new }
        ensures covers { OneKind self.now.loads.now.records.now → Covers E.Effect.means (M.Norm.percentages self.now.norm.now) self.now.question self.now.loads.now.records.now (Since taken.long taken.short) result }
    {
        let loads = self.loads;
        let of_long = percents_for(self.norm, taken, Term::Long, tables.long.last(loads));
        let of_short = percents_for(self.norm, taken, Term::Short, tables.short.last(loads));
        let by_long = Rated {
            loads,
            percents: of_long,
        };
        let by_short = Rated {
            loads,
            percents: of_short,
        };
        tables.long.turn_to(&by_long, taken.long);
        tables.short.turn_to(&by_short, taken.short);
        let granted = combination::Table {
            long: of_long,
            short: of_short,
        };
        let found = self.pair(tables, granted, taken);
        larger_by(|candidate| candidate.effect, best, found)
    }

    // All numbers of short-term loads, up to `most`, beside `long` long-term ones.
    fn across(
        &self,
        tables: &mut Tables<E>,
        before: Option<Candidate<E>>,
        long: u64,
        most: u64,
    ) -> Option<Candidate<E>>
        requires prepared { Prepared E.Effect.means self.now.loads.now.records.now tables.old }
        requires longs { long ≤ 32 }
        requires few { most ≤ 32 }
        requires shorts { Limits self.now.question self.now.loads.now.records.now ShortTerm most }
        requires covers { OneKind self.now.loads.now.records.now → Covers E.Effect.means (M.Norm.percentages self.now.norm.now) self.now.question self.now.loads.now.records.now (Since (long + 1) 0) before }
        ensures prepared { Prepared E.Effect.means self.now.loads.now.records.now tables.new }
        ensures covers { OneKind self.now.loads.now.records.now → Covers E.Effect.means (M.Norm.percentages self.now.norm.now) self.now.question self.now.loads.now.records.now (Since long 0) result }
    {
        let mut best = before;
        for short in (0..=most).rev() {
            best = self.step(tables, best, Taken { long, short });
        }
        best
    }

    // The worst candidate, where the records of a group are of one kind; None where no choice is admissible.
    // No numbers are tried that no choice takes.
    pub(crate) fn worst(&self) -> Option<Candidate<E>>
        ensures { OneKind self.now.loads.now.records.now → Answered E.Effect.means (M.Norm.percentages self.now.norm.now) self.now.question self.now.loads.now.records.now result }
    {
        let mut tables = tables_of(self.loads);
        let longs = self.most_of(&tables.long);
        let shorts = self.most_of(&tables.short);
        let mut best = None;
        for long in (0..=longs).rev() {
            best = self.across(&mut tables, best, long, shorts);
        }
        best
    }
}
