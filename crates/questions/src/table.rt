// The best part choices by number of records taken, carried from group to group.
ghost use Rattle.std.specs.Prelude.{◌≡◌, ℕ, ◌+◌, ◌<◌, ◌≤◌, true, false, length, slice_index_or, slice_set};
ghost use Rattle.questions.specs.BestParts.{Opens};
ghost use Rattle.questions.specs.Items.{items_of};
ghost use Rattle.questions.specs.PartChoices.{Marked};
ghost use Rattle.questions.specs.Tables.{TableBest, Closed, Carried, blank_table};

use crate::choice::{Assignment, PartChoice};
use crate::groups::Wanted;
use crate::rated::Rated;
use crate::row::Row;
use effect::Effect;

// Kept: 33 rows of which `limit` says the last, since the search has no heap.
// Kept: that the rows are the best stays a clause: as an invariant it would need the records and percentages in the table too.
#[derive(Clone, Copy)]
pub(crate) struct Table {
    // the row at c takes c records
    pub rows: [Row; 33],
    // which records the choices may take so far
    pub done: [bool; 32],
    // the number of groups of these records, a record of group 0 counting as one: no choice takes more
    pub groups: usize,
    // the last row that is kept
    pub limit: usize,
}

impl Table {
    // No record is done: the one choice takes none.
    pub(crate) fn blank(limit: usize) -> Table
        ensures { result ≡ blank_table limit }
    {
        let mut rows = [Row::default(); 33];
        rows[0].neither = Some(PartChoice {
            assignments: [Assignment::Out; 32],
        });
        Table {
            rows,
            done: [false; 32],
            groups: 0,
            limit,
        }
    }

    // Record j is done too, on top of the choices in `old`, which has one group fewer.
    fn offer<E: Effect>(&mut self, old: &Table, rated: &Rated<E>, j: usize)
        requires opens { Opens (items_of E.means rated.now.percents rated.now.loads.now.records.now) old.now.done self.old.done j }
        requires prior { TableBest E.means (items_of E.means rated.now.percents rated.now.loads.now.records.now) old.now }
        requires best { TableBest E.means (items_of E.means rated.now.percents rated.now.loads.now.records.now) self.old }
        requires one { self.old.groups ≡ old.now.groups + 1 }
        requires rows { self.old.limit ≡ old.now.limit }
        ensures best { TableBest E.means (items_of E.means rated.now.percents rated.now.loads.now.records.now) self.new }
        ensures done { self.new.done ≡ slice_set self.old.done j true }
        ensures groups { self.new.groups ≡ self.old.groups }
        ensures limit { self.new.limit ≡ self.old.limit }
    {
        let last = self.groups.min(self.limit);
        // Kept: the place is counted, since of a zip over `self.rows[1..=last].iter_mut()` the proof leaves open what `rows` holds after the loop.
        for count in 1..=last {
            let row = self.rows[count].stepped(&old.rows[count - 1], rated, j);
            self.rows[count] = row;
        }
        self.done[j] = true;
    }

    // The wanted records of the group of record i are done too: at most one of them joins each choice.
    fn carry<E: Effect>(&mut self, rated: &Rated<E>, wanted: &[bool; 32], i: usize)
        requires here { i < length rated.now.loads.now.records.now }
        requires asked { Marked wanted.now i }
        requires fresh { slice_index_or self.old.done i false ≡ false }
        requires closed { Closed (items_of E.means rated.now.percents rated.now.loads.now.records.now) wanted.now self.old.done }
        requires best { TableBest E.means (items_of E.means rated.now.percents rated.now.loads.now.records.now) self.old }
        requires room { self.old.groups < 32 }
        ensures best { TableBest E.means (items_of E.means rated.now.percents rated.now.loads.now.records.now) self.new }
        ensures carried { Carried (items_of E.means rated.now.percents rated.now.loads.now.records.now) wanted.now i self.old.done self.new.done }
        ensures groups { self.new.groups ≡ self.old.groups + 1 }
        ensures limit { self.new.limit ≡ self.old.limit }
    {
        let old = *self;
        self.groups += 1;
        let group = Wanted {
            loads: rated.loads,
            flags: wanted,
        };
        // Kept: the loop is over the places themselves, since `offer` is handed the place.
        for j in 0..rated.loads.records.len() {
            if group.is_fellow(i, j) {
                self.offer(&old, rated, j);
            }
        }
    }

    // The best choices among the wanted records that take up to `limit` of them.
    pub(crate) fn of<E: Effect>(rated: &Rated<E>, wanted: &[bool; 32], limit: usize) -> Table
        requires { limit ≤ 32 }
        ensures limit { result.limit ≡ limit }
        ensures best { TableBest E.means (items_of E.means rated.now.percents rated.now.loads.now.records.now) result }
        ensures all { (k : ℕ) → k < length rated.now.loads.now.records.now → Marked wanted.now k → Marked result.done k }
        ensures only { (k : ℕ) → Marked result.done k → Marked wanted.now k }
    {
        let mut table = Table::blank(limit);
        // Kept: `table.done` changes in the loop, at other places too, so no iterator over it can run beside.
        for i in 0..rated.loads.records.len() {
            if wanted[i] && !table.done[i] {
                table.carry(rated, wanted, i);
            }
        }
        table
    }
}
