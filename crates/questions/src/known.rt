// The table of a kind, with the percentages that it was built at.
ghost use Rattle.std.specs.Prelude.{◌≡◌, ◌≤◌, Some, false, slice_index_or};
ghost use Rattle.questions.specs.Engine.{Marks, Tabled};
ghost use Rattle.questions.specs.Items.{items_of, Whole};
ghost use Rattle.questions.specs.Parts.{mask};
ghost use Rattle.questions.specs.Tables.{Answers};

use crate::choice::PartChoice;
use crate::rated::{Rated, WHOLE, WeighedRecords};
use crate::table::Table;
use combination::Percents;
use effect::Effect;
use loads::Kind;
use std::array;

// Kept: `wanted` is an array of 32 flags and not a list of places, since the search has no heap.
// Kept: that the table is right for its percentages stays a clause: as an invariant it would need the records in `Known` too.
// Kept: the table stands beside its percentages and not with them in one option, since it is asked for its rows, and how many it keeps, before any percentages too.
#[derive(Clone, Copy)]
pub(crate) struct Known {
    pub kind: Kind,
    // which records are of the kind
    pub wanted: [bool; 32],
    // the percentages of the table, None before one is built
    pub percents: Option<Percents>,
    pub table: Table,
}

impl<'a, E: Effect> WeighedRecords<'a, E> {
    // Whether there is a record of a kind at a place.
    fn is_of_kind(&self, k: usize, kind: Kind) -> bool
        ensures { result ≡ slice_index_or (mask kind self.now.records.now) k false }
    {
        self.records
            .get(k)
            .is_some_and(|record| record.kind == kind)
    }
}

// Which records are of a kind.
fn marks<E: Effect>(loads: &WeighedRecords<E>, kind: Kind) -> [bool; 32]
    ensures { Marks loads.now.records.now kind result }
{
    array::from_fn(|k| loads.is_of_kind(k, kind))
}

impl Known {
    // No table is built yet.
    pub(crate) fn of<E: Effect>(loads: &WeighedRecords<E>, kind: Kind) -> Known
        ensures tabled { Tabled E.means loads.now.records.now result }
        ensures kind { result.kind ≡ kind }
    {
        Known {
            kind,
            wanted: marks(loads, kind),
            percents: None,
            table: Table::blank(0),
        }
    }

    // The percentages of the last table, or 100 before the first.
    pub(crate) fn last<E: Effect>(&self, loads: &WeighedRecords<E>) -> Percents
        requires { Tabled E.means loads.now.records.now self.now }
        ensures { Whole result }
    {
        self.percents.unwrap_or(WHOLE)
    }

    // At other percentages, and where it has too few rows, the table is built again.
    pub(crate) fn turn_to<E: Effect>(&mut self, rated: &Rated<E>, number: u64)
        requires tabled { Tabled E.means rated.now.loads.now.records.now self.old }
        requires number { number ≤ 32 }
        ensures tabled { Tabled E.means rated.now.loads.now.records.now self.new }
        ensures kind { self.new.kind ≡ self.old.kind }
        ensures percents { self.new.percents ≡ Some rated.now.percents }
        ensures rows { number ≤ self.new.table.limit }
    {
        let limit = number as usize;
        if self.table.limit < limit || self.percents != Some(rated.percents) {
            self.table = Table::of(rated, &self.wanted, limit);
            self.percents = Some(rated.percents);
        }
    }

    // The best choice that takes `number` records of the kind; None where no choice takes so many.
    pub(crate) fn best<E: Effect>(&self, rated: &Rated<E>, number: u64) -> Option<PartChoice>
        requires rows { number ≤ self.now.table.limit }
        requires tabled { Tabled E.means rated.now.loads.now.records.now self.now }
        requires built { self.now.percents ≡ Some rated.now.percents }
        ensures { Answers E.means (items_of E.means rated.now.percents rated.now.loads.now.records.now) self.now.wanted number result }
    {
        let row = &self.table.rows[number as usize];
        match number {
            0 => row.neither,
            1 => row.leading,
            _ => row.both,
        }
    }
}
