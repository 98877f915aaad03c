// What can be chosen among records of one kind, and what a choice comes to.
ghost use Rattle.std.specs.Prelude.{◌≡◌, ◌≤◌};
ghost use Rattle.questions.specs.PartChoices.{assigned, chosen, comes, role_of, worth};
ghost use Rattle.questions.specs.Items.{share, item_of, items_of, weight_of};

use crate::rated::{Rated, RuledRecord};
use effect::Effect;
use norm::Role;

// Whether a record is taken, and in which role.
// Kept: one enum in place of `Option<Role>`, since it takes one byte and that takes two, and choices are copied from row to row.
#[derive(Clone, Copy)]
pub(crate) enum Assignment {
    Out,
    Leading,
    Second,
    Other,
}

impl Assignment {
    // Taken in a role.
    pub(crate) fn of(role: Role) -> Assignment
        ensures { result ≡ assigned role }
    {
        match role {
            Role::Leading => Assignment::Leading,
            Role::Second => Assignment::Second,
            Role::Other => Assignment::Other,
        }
    }

    // The role in which the record is taken, None where it is left out.
    pub(crate) fn role(self) -> Option<Role>
        ensures { result ≡ role_of self }
    {
        match self {
            Assignment::Out => None,
            Assignment::Leading => Some(Role::Leading),
            Assignment::Second => Some(Role::Second),
            Assignment::Other => Some(Role::Other),
        }
    }
}

// An assignment for each record, in their order; those past the last record mean nothing.
// Kept: one for each of 32 records, since a choice is copied from row to row and the search has no heap.
#[derive(Clone, Copy)]
pub(crate) struct PartChoice {
    pub assignments: [Assignment; 32],
}

impl<'a, E: Effect> RuledRecord<'a, E> {
    // What the record contributes at a percentage; its weight is its upper factor times its reduction factor.
    fn share(&self, weight: u64, percent: u64) -> E
        requires weighed { weight ≡ weight_of self.now.record.now }
        requires whole { percent ≤ 100 }
        ensures { result ≡ share E.means self.now.record.now percent }
    {
        self.record.load.effect.multiple(weight * percent)
    }
}

impl<'a, E: Effect> Rated<'a, E> {
    // What a record contributes in a role, zero where it is left out.
    fn contribution(&self, load: &RuledRecord<E>, weight: u64, role: Option<Role>) -> E
        requires { weight ≡ weight_of load.now.record.now }
        ensures { result ≡ worth E.means (item_of E.means self.now.percents load.now.record.now) role }
    {
        match role {
            None => E::zero(),
            Some(Role::Leading) => load.share(weight, self.percents.leading),
            Some(Role::Second) => load.share(weight, self.percents.second),
            Some(Role::Other) => load.share(weight, self.percents.other),
        }
    }

    // What a choice comes to.
    pub(crate) fn total(&self, choice: &PartChoice) -> E
        ensures { result ≡ comes E.means (items_of E.means self.now.percents self.now.loads.now.records.now) (chosen (items_of E.means self.now.percents self.now.loads.now.records.now) choice.now) }
    {
        let mut sum = E::zero();
        let weighed = self.loads.records.iter().zip(&self.loads.weights);
        for ((record, weight), assignment) in weighed.zip(&choice.assignments) {
            let load = RuledRecord { record };
            let part = self.contribution(&load, *weight, assignment.role());
            sum = sum.sum(part);
        }
        sum
    }
}
