// The calls that change a sheet, with their arguments.
ghost use Rattle.std.specs.Prelude.{◌≡◌};
ghost use Rattle.sheet.specs.Ledger.{record_of};

use loads::{Kind, Load, Record};

// What is handed in for a new or an altered record: its number, the letter of its kind and its load.
// Kept: a letter and not a kind, since any letter may be handed in and the sheet says why it is refused.
#[derive(Clone, Copy)]
pub struct Entry<E> {
    pub number: u64,
    pub letter: char,
    pub load: Load<E>,
}

impl<E: Copy> Entry<E> {
    // The record of this entry, where its letter stands for a kind.
    pub(crate) fn record(self, kind: Kind) -> Record<E>
        ensures { result ≡ record_of self kind }
    {
        Record {
            number: self.number,
            kind,
            load: self.load,
        }
    }
}

#[derive(Clone, Copy)]
pub enum Change<E> {
    Enter(Entry<E>),
    Alter(Entry<E>),
    // the record with this number
    Strike(u64),
}
