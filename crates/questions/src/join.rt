// Choices of each kind and the permanent loads, put together.
ghost use Rattle.std.specs.Prelude.{◌≡◌, length, slice_index_or, take};
ghost use Rattle.combination.specs.declared.picks.Pick.TheVariants.{Out};
ghost use Rattle.questions.specs.Engine.{joined};
ghost use Rattle.questions.specs.Parts.{given as given_pick, placed, taken_as};

use crate::pair::Parts;
use crate::rated::{RuledRecord, WeighedRecords};
use combination::Pick;
use effect::Effect;
use loads::Kind;
use norm::Role;
use std::array;

fn pick_for(role: Option<Role>) -> Pick
    ensures { result ≡ given_pick role }
{
    role.map_or(Pick::Out, Pick::As)
}

fn taken_as(role: Option<Role>) -> Pick
    ensures { result ≡ taken_as role }
{
    role.map_or(Pick::Out, |_| Pick::Taken)
}

impl<'a, E: Effect> RuledRecord<'a, E> {
    // The pick of the record, by its kind.
    fn place(&self, long: Option<Role>, short: Option<Role>, special: Option<Role>) -> Pick
        ensures { result ≡ placed E.means self.now.record.now.kind self.now.record.now long short special }
    {
        match self.record.kind {
            Kind::Permanent => self.best_factor(),
            Kind::LongTerm => pick_for(long),
            Kind::ShortTerm => pick_for(short),
            Kind::Special => taken_as(special),
        }
    }
}

impl<'a, E: Effect> WeighedRecords<'a, E> {
    // The pick of the record at a place; out where there is no record.
    fn place(&self, parts: &Parts, k: usize) -> Pick
        ensures { result ≡ slice_index_or (joined E.means self.now.records.now parts.now) k Out }
    {
        let Some(record) = self.records.get(k) else {
            return Pick::Out;
        };
        RuledRecord { record }.place(
            parts.long.assignments[k].role(),
            parts.short.assignments[k].role(),
            parts.special.assignments[k].role(),
        )
    }
}

// The picks of three choices and the permanent loads.
pub(crate) fn join<E: Effect>(loads: &WeighedRecords<E>, parts: &Parts) -> [Pick; 32]
    ensures { take (length loads.now.records.now) result ≡ joined E.means loads.now.records.now parts.now }
{
    array::from_fn(|k| loads.place(parts, k))
}
