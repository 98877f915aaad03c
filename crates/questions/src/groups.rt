// The groups of the records that are wanted; a record of group 0 stands alone.
ghost use Rattle.std.specs.Prelude.{◌≡◌, ℕ, ◌+◌, ◌<◌, ◌≤◌, true, false, length, Decides, slice_index_or};
ghost use Rattle.combination.specs.declared.percents.Percents.{Percents as PercentsOf};
ghost use Rattle.questions.specs.Items.{full, items_of};
ghost use Rattle.questions.specs.PartChoices.{Marked};
ghost use Rattle.questions.specs.Tables.{Fellow, Closed, Carried, TakesAtMost};

use crate::rated::WeighedRecords;
use effect::Effect;

// Weighed records, and which of them are wanted.
#[derive(Drop)]
pub(crate) struct Wanted<'a, E: Effect> {
    pub loads: &'a WeighedRecords<'a, E>,
    pub flags: &'a [bool; 32],
}

impl<'a, E: Effect> Wanted<'a, E> {
    // Whether record j is a wanted record of the group of record i, or record i itself.
    pub(crate) fn is_fellow(&self, i: usize, j: usize) -> bool
        requires first { i < length self.now.loads.now.records.now }
        requires second { j < length self.now.loads.now.records.now }
        ensures { (p : PercentsOf) → Decides result (Fellow (items_of E.means p self.now.loads.now.records.now) self.now.flags.now i j) }
    {
        if i == j {
            return true;
        }
        if !self.flags[j] {
            return false;
        }
        let records = self.loads.records;
        records[i].load.shares_group(&records[j].load)
    }

    // The wanted records of the group of record i are done too.
    fn mark_group(&self, done: &mut [bool; 32], i: usize)
        requires here { i < length self.now.loads.now.records.now }
        requires asked { Marked self.now.flags.now i }
        requires fresh { slice_index_or done.old i false ≡ false }
        requires closed { Closed (items_of E.means full self.now.loads.now.records.now) self.now.flags.now done.old }
        ensures carried { Carried (items_of E.means full self.now.loads.now.records.now) self.now.flags.now i done.old done.new }
        ensures bound { (n : ℕ) → TakesAtMost (items_of E.means full self.now.loads.now.records.now) done.old n → TakesAtMost (items_of E.means full self.now.loads.now.records.now) done.new (n + 1) }
    {
        // Kept: over the places, since `is_fellow` is asked by them; `done.iter_mut().enumerate()` counts them too and goes past the records.
        for j in 0..self.loads.records.len() {
            if self.is_fellow(i, j) {
                done[j] = true;
            }
        }
    }

    // The number of groups of the wanted records: no choice takes more of them.
    pub(crate) fn group_count(&self) -> usize
        ensures bound { TakesAtMost (items_of E.means full self.now.loads.now.records.now) self.now.flags.now result }
        ensures few { result ≤ 32 }
    {
        let mut done = [false; 32];
        let mut count = 0;
        // Kept: `done` changes in the loop, at other places too, so no iterator over it can run beside.
        for i in 0..self.loads.records.len() {
            if self.flags[i] && !done[i] {
                self.mark_group(&mut done, i);
                count += 1;
            }
        }
        count
    }
}
