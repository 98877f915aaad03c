// A part choice with one record more.
ghost use Rattle.std.specs.Prelude.{◌≡◌, ◌<◌};
ghost use Rattle.questions.specs.BestParts.{added, Better};
ghost use Rattle.questions.specs.Items.{items_of};

use crate::choice::{Assignment, PartChoice};
use crate::larger::larger_by;
use crate::rated::Rated;
use effect::Effect;
use norm::Role;

// The choice with record j added in a role.
// Kept: `j < 32` is a clause of the three steps that hand on a place; a type for a place would be made for them alone.
fn with_record(part: Option<PartChoice>, j: usize, role: Role) -> Option<PartChoice>
    requires { j < 32 }
    ensures { result ≡ added j role part }
{
    let mut choice = part?;
    choice.assignments[j] = Assignment::of(role);
    Some(choice)
}

impl<'a, E: Effect> Rated<'a, E> {
    // The larger of `kept` and of `part` with record j added in a role; `kept` where they come to the same.
    pub(crate) fn improved(
        &self,
        kept: Option<PartChoice>,
        part: Option<PartChoice>,
        j: usize,
        role: Role,
    ) -> Option<PartChoice>
        requires { j < 32 }
        ensures { Better E.means (items_of E.means self.now.percents self.now.loads.now.records.now) kept (added j role part) result }
    {
        let added = with_record(part, j, role);
        larger_by(|choice| self.total(choice), kept, added)
    }
}
