// The group rule of a record that is handed in.
ghost use Rattle.std.specs.Prelude.{Decides};
ghost use Rattle.std.specs.List.{AllByRecursion};
ghost use Rattle.loads.specs.Rules.{GroupIn};
ghost use Rattle.sheet.specs.Ledger.{Other, Agrees, GroupRule};

use effect::Effect;
use loads::{Kind, Record};

// A record of this kind in this group; the record numbered `own`, which it replaces, bars none.
#[derive(Clone, Copy)]
pub(crate) struct Membership {
    pub(crate) own: Option<u64>,
    pub(crate) kind: Kind,
    pub(crate) group: u64,
}

impl Membership {
    // Whether the group may be given, whatever else the sheet holds.
    fn is_allowed(self) -> bool
        ensures { Decides result (GroupIn self.kind self.group) }
    {
        match self.kind {
            Kind::LongTerm | Kind::ShortTerm => self.group <= 99,
            _ => self.group == 0,
        }
    }

    // Whether it may stand beside another record.
    fn agrees<E: Effect>(self, beside: &Record<E>) -> bool
        ensures { Decides result (Other self.own beside.now → Agrees self.kind self.group beside.now) }
    {
        if self.own == Some(beside.number) {
            return true;
        }
        self.group == 0 || beside.load.group != self.group || beside.kind == self.kind
    }

    // Whether the records of the group are all of its kind.
    fn fits<E: Effect>(self, records: &[Record<E>]) -> bool
        ensures { Decides result (AllByRecursion (λ b. Other self.own b → Agrees self.kind self.group b) records.now) }
    {
        records.iter().all(
            |beside|
                ensures { Decides result (Other self.own beside.now → Agrees self.kind self.group beside.now) }
            { self.agrees(beside) },
        )
    }

    // Whether the group rule holds, by itself and beside the others.
    pub(crate) fn is_kept<E: Effect>(self, records: &[Record<E>]) -> bool
        ensures { Decides result (GroupRule self.own self.group records.now self.kind) }
    {
        self.is_allowed() && self.fits(records)
    }
}
