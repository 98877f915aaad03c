// What is done with a log.
ghost use Rattle.std.specs.Prelude.{◌≤◌, length};
ghost use Rattle.history.specs.Logs.{Begun, MadeRoom, Noted, Room};

use crate::logs::{Log, Turn};
use crate::outcomes::Outcome;
use effect::Effect;
use loads::Record;
use std::alloc::AllocError;

impl<E: Effect> Log<E> {
    // Begins with a sheet that holds these records. The memory stays.
    pub(crate) fn begin(&mut self, records: &[Record<E>])
        ensures { Begun self.old records.now self.new }
    {
        self.opened = records.len();
        self.turns.clear();
        self.pages.clear();
    }

    // Makes room for one turn more, with at most 32 records.
    pub(crate) fn make_room(&mut self) -> Result<(), AllocError>
        ensures { MadeRoom self.old result self.new }
    {
        self.turns.reserve(1)?;
        self.pages.reserve(32)
    }

    // Notes a turn, for which there is room.
    pub(crate) fn note(&mut self, outcome: Outcome<E>, records: &[Record<E>])
        requires room { Room self.old }
        requires few { length records.now ≤ 32 }
        ensures { Noted self.old outcome records.now self.new }
    {
        let held = records.len();
        self.turns.push_reserved(Turn { outcome, held });
        // Kept: the error is dropped, since `room` says that there is memory for 32 records, and of a slice there is no `push_reserved`.
        let _ = self.pages.extend_from_slice(records);
    }
}
