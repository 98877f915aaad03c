// The best part choices that take one number of records.
ghost use Rattle.std.specs.Prelude.{◌<◌};
ghost use Rattle.questions.specs.Items.{items_of};
ghost use Rattle.questions.specs.Rows.{Stepped};

use crate::choice::PartChoice;
use crate::rated::Rated;
use effect::Effect;
use norm::Role;

// By whether the leading and the second role are given; None where no choice is so.
#[derive(Clone, Copy, Default)]
pub(crate) struct Row {
    pub neither: Option<PartChoice>,
    pub leading: Option<PartChoice>,
    pub second: Option<PartChoice>,
    pub both: Option<PartChoice>,
}

impl Row {
    // The row, improved by record j in each role on top of the row `old` of one record fewer.
    pub(crate) fn stepped<E: Effect>(&self, old: &Row, rated: &Rated<E>, j: usize) -> Row
        requires { j < 32 }
        ensures { Stepped E.means (items_of E.means rated.now.percents rated.now.loads.now.records.now) self.now old.now j result }
    {
        let neither = rated.improved(self.neither, old.neither, j, Role::Other);
        let leading = rated.improved(self.leading, old.leading, j, Role::Other);
        let leading = rated.improved(leading, old.neither, j, Role::Leading);
        let second = rated.improved(self.second, old.second, j, Role::Other);
        let second = rated.improved(second, old.neither, j, Role::Second);
        let both = rated.improved(self.both, old.both, j, Role::Other);
        let both = rated.improved(both, old.second, j, Role::Leading);
        let both = rated.improved(both, old.leading, j, Role::Second);
        Row {
            neither,
            leading,
            second,
            both,
        }
    }
}
