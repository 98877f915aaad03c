// Which choices are admissible.
ghost use Rattle.std.specs.Prelude.{Decides};
ghost use Rattle.std.specs.List.{AllByRecursion};
ghost use Rattle.combination.specs.Choices.{line_of, lines_of, Fits, Apart, Roles, Admissible};
ghost use Rattle.combination.specs.Lists.{EachTwo};

use crate::choice::{Choice, Picked};
use crate::picks::Pick;
use crate::questions::Question;
use loads::Kind;
use norm::Role;

impl<'a, E> Picked<'a, E> {
    // Whether the pick is one for the record's kind.
    fn is_fit(&self) -> bool
        ensures { Decides result (Fits (line_of self.now)) }
    {
        let kind = self.of.kind;
        match self.pick {
            Pick::Upper | Pick::Lower => kind == Kind::Permanent,
            Pick::Out => kind != Kind::Permanent,
            Pick::As(_) => kind == Kind::LongTerm || kind == Kind::ShortTerm,
            Pick::Taken => kind == Kind::Special,
        }
    }

    // Whether two records are not both taken where they share a group.
    fn is_apart(&self, other: &Picked<E>) -> bool
        ensures { Decides result (Apart (line_of self.now) (line_of other.now)) }
    {
        let share_group = self.of.load.shares_group(&other.of.load);
        !(share_group && self.pick.is_taken() && other.pick.is_taken())
    }

    // Whether it is apart from all of a choice.
    fn is_apart_from_all(&self, others: &Choice<E>) -> bool
        ensures { Decides result (AllByRecursion (Apart (line_of self.now)) (lines_of others.now)) }
    {
        others.records.iter().zip(others.picks).all(
            |(of, pick)|
                ensures { Decides result (Apart (line_of self.entry.now) (of.entry.now, pick.entry.now)) }
            { self.is_apart(&Picked { of, pick: *pick }) },
        )
    }
}

impl<'a, E> Choice<'a, E> {
    // Whether the records of a kind have their roles.
    fn has_roles(&self, kind: Kind) -> bool
        ensures { Decides result (Roles kind (lines_of self.now)) }
    {
        let leading = self.count(kind, Some(Role::Leading));
        let second = self.count(kind, Some(Role::Second));
        match self.count(kind, None) {
            0 => second == 0,
            1 => leading == 1 && second == 0,
            _ => leading == 1 && second == 1,
        }
    }

    // Whether each pick is one for its record.
    fn all_fit(&self) -> bool
        ensures { Decides result (AllByRecursion Fits (lines_of self.now)) }
    {
        self.records.iter().zip(self.picks).all(
            |(of, pick)|
                ensures { Decides result (Fits (of.entry.now, pick.entry.now)) }
            { Picked { of, pick: *pick }.is_fit() },
        )
    }

    // Whether no two records are taken that share a group.
    fn all_apart(&self) -> bool
        ensures { Decides result (EachTwo Apart (lines_of self.now)) }
    {
        let mut rest = (self.records, self.picks);
        while let ([of, records @ ..], [pick, picks @ ..]) = rest {
            let pick = *pick;
            if !(Picked { of, pick }).is_apart_from_all(&Choice { records, picks }) {
                return false;
            }
            rest = (records, picks);
        }
        true
    }

    // Whether it is admissible.
    pub fn is_admissible(&self, question: Question) -> bool
        ensures { Decides result (Admissible question self.now.records.now self.now.picks.now) }
    {
        let fit = self.all_fit();
        let specials = self.count(Kind::Special, None);
        let long = self.has_roles(Kind::LongTerm);
        let short = self.has_roles(Kind::ShortTerm);
        let apart = self.all_apart();
        let wanted = question.specials();
        let parallel = self.picks.len() == self.records.len();
        parallel && fit && specials == wanted && long && short && apart
    }
}
