// A choice: records, with what is done with each.
ghost use Rattle.std.specs.Prelude.{◌≡◌};
ghost use Rattle.combination.specs.Choices.{lines_of};
ghost use Rattle.combination.specs.Computing.{is_counted_pick, counted};

use crate::picks::Pick;
use loads::{Kind, Record};
use norm::Role;

// A pick for each record, in the order of the records. An admissible choice has as many picks as records; of any other, the picks past the last
// record and the records past the last pick count for nothing.
// Kept: two slices, since a sheet lends the records and an answer holds the picks; a list of pairs would need memory of its own.
#[derive(Clone, Copy)]
pub struct Choice<'a, E> {
    pub records: &'a [Record<E>],
    pub picks: &'a [Pick],
}

// One record, with what a choice does with it.
#[derive(Drop)]
pub struct Picked<'a, E> {
    pub of: &'a Record<E>,
    pub pick: Pick,
}

fn is_counted(role: Option<Role>, pick: Pick) -> bool
    ensures { result ≡ is_counted_pick role pick }
{
    match role {
        None => pick.is_taken(),
        Some(_) => pick.role() == role,
    }
}

impl<'a, E> Choice<'a, E> {
    // How many records of a kind are taken, in a role where one is given.
    // Kept: an `Option` of a role and not a closure, of which each caller would have to show what it answers.
    pub(crate) fn count(&self, kind: Kind, role: Option<Role>) -> u64
        ensures { result ≡ counted kind role (lines_of self.now) }
    {
        self.records
            .iter()
            .zip(self.picks)
            .filter(|(of, pick)| kind == of.kind && is_counted(role, **pick))
            .count() as u64
    }
}
