// The best candidate for one pair of numbers taken.
ghost use Rattle.std.specs.Prelude.{◌≡◌, ◌≤◌, Some};
ghost use Rattle.questions.specs.Engine.{PairBest, Prepared, Room, four, part_total};

use crate::choice::PartChoice;
use crate::known::Known;
use crate::rated::{Rated, WHOLE};
use crate::worst::Search;
use combination::Question;
use effect::Effect;
use norm::Taken;

// A choice of each kind.
#[derive(Clone, Copy)]
pub(crate) struct Parts {
    pub long: PartChoice,
    pub short: PartChoice,
    pub special: PartChoice,
}

// What is known of the kinds.
#[derive(Clone, Copy)]
pub(crate) struct Tables<E> {
    // the sum of the permanent loads
    pub permanent: E,
    pub long: Known,
    pub short: Known,
    pub special: Known,
}

// A choice of each kind, with what they come to together with the permanent loads.
#[derive(Clone, Copy)]
pub(crate) struct Candidate<E> {
    pub effect: E,
    pub parts: Parts,
}

// What choices of each kind come to together with the permanent loads.
fn together<E: Effect>(
    permanent: E,
    long: &Rated<E>,
    short: &Rated<E>,
    special: &Rated<E>,
    parts: &Parts,
) -> E
    requires { Room E.means permanent (part_total E.means long.now.loads.now.records.now long.now.percents parts.now.long) (part_total E.means short.now.loads.now.records.now short.now.percents parts.now.short) (part_total E.means special.now.loads.now.records.now special.now.percents parts.now.special) }
    ensures { result ≡ four E.means permanent (part_total E.means long.now.loads.now.records.now long.now.percents parts.now.long) (part_total E.means short.now.loads.now.records.now short.now.percents parts.now.short) (part_total E.means special.now.loads.now.records.now special.now.percents parts.now.special) }
{
    let of_special = special.total(&parts.special);
    let temporary = short.total(&parts.short).sum(of_special);
    let taken = long.total(&parts.long).sum(temporary);
    permanent.sum(taken)
}

impl<'a, E: Effect, M> Search<'a, E, M> {
    // The best candidate among the choices that take these numbers of long-term and short-term loads.
    // Kept: `granted` and not the two `Rated` of `step`, since of these two more clauses would have to say that they hold the records of the search.
    pub(crate) fn pair(
        &self,
        tables: &Tables<E>,
        granted: combination::Table,
        taken: Taken,
    ) -> Option<Candidate<E>>
        requires prepared { Prepared E.Effect.means self.now.loads.now.records.now tables.now }
        requires by_long { tables.now.long.percents ≡ Some granted.long }
        requires by_short { tables.now.short.percents ≡ Some granted.short }
        requires longs { taken.long ≤ tables.now.long.table.limit }
        requires shorts { taken.short ≤ tables.now.short.table.limit }
        ensures { PairBest E.Effect.means self.now.question self.now.loads.now.records.now granted taken result }
    {
        let by_long = Rated {
            loads: self.loads,
            percents: granted.long,
        };
        let by_short = Rated {
            loads: self.loads,
            percents: granted.short,
        };
        let whole = Rated {
            loads: self.loads,
            percents: WHOLE,
        };
        let long = tables.long.best(&by_long, taken.long)?;
        let short = tables.short.best(&by_short, taken.short)?;
        let special = tables.special.best(&whole, self.question.specials())?;
        let parts = Parts {
            long,
            short,
            special,
        };
        let effect = together(tables.permanent, &by_long, &by_short, &whole, &parts);
        Some(Candidate { effect, parts })
    }
}
