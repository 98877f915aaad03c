// What one record contributes to a choice.
ghost use Rattle.std.specs.Prelude.{◌≡◌, ◌*◌, ◌≤◌, if◌then◌else◌};
ghost use Rattle.loads.specs.Rules.{Ruled};
ghost use Rattle.reduction.specs.Factor.{InRange, factor_of};
ghost use Rattle.combination.specs.Computing.{Bounded, by_role, by_table};
ghost use Rattle.combination.specs.Worst.{permanent as always, temporary as in_role, special as if_taken, contribution as contributed};

use crate::choice::Picked;
use crate::percents::{Percents, Table};
use effect::{Effect, multiple_if};
use loads::{Kind, Load};

// The factor of the reduction, in ten-thousandths; 0 where there is none.
fn reduction_of<E>(load: &Load<E>) -> u64
    ensures value { InRange load.now.class load.now.area load.now.storeys → result ≡ factor_of load.now.class load.now.area load.now.storeys }
    ensures most { result ≤ 10000 }
{
    load.reduction_factor().unwrap_or(0)
}

// An effect times a factor and a weight where it is taken, zero where it is not.
// Kept: an Option of the weight is no plainer: two of its three callers would make it from the same `is_taken()`.
fn weighted<E: Effect>(effect: E, factor: u64, weight: u64, taken: bool) -> E
    ensures { factor ≤ 200 → weight ≤ 1000000 → E.Effect.means.reach effect ≤ 1000000000 → result ≡ (if taken then E.Effect.means.times (factor * weight) effect else E.Effect.means.nil) }
{
    multiple_if(effect, taken.then_some(factor.saturating_mul(weight)))
}

impl<'a, E: Effect> Picked<'a, E> {
    // A permanent load always counts, by the factor that is chosen.
    fn permanent(&self) -> E
        ensures { Ruled E.Effect.means self.now.of.now → result ≡ always E.Effect.means self.now.pick self.now.of.now }
    {
        let load = &self.of.load;
        weighted(load.effect, self.pick.factor(load), 1_000_000, true)
    }

    // A long-term or short-term load counts where it is taken, reduced and by the percentage of its role.
    fn temporary(&self, percents: Percents) -> E
        ensures { Ruled E.Effect.means self.now.of.now → Bounded percents → result ≡ in_role E.Effect.means (by_role percents) self.now.pick self.now.of.now }
    {
        let load = &self.of.load;
        let weight = reduction_of(load).saturating_mul(percents.at(self.pick.role()));
        weighted(load.effect, load.upper, weight, self.pick.is_taken())
    }

    // A special load counts where it is taken.
    fn special(&self) -> E
        ensures { Ruled E.Effect.means self.now.of.now → result ≡ if_taken E.Effect.means self.now.pick self.now.of.now }
    {
        let load = &self.of.load;
        weighted(load.effect, load.upper, 1_000_000, self.pick.is_taken())
    }

    // What the record contributes, a long-term or short-term load by the percentage of its role in the table.
    pub(crate) fn contribution(&self, table: &Table) -> E
        ensures { Ruled E.Effect.means self.now.of.now → Bounded table.now.long → Bounded table.now.short → result ≡ contributed E.Effect.means (by_table table.now) 0 0 self.now.of.now.kind self.now.pick self.now.of.now }
    {
        match self.of.kind {
            Kind::Permanent => self.permanent(),
            Kind::LongTerm => self.temporary(table.long),
            Kind::ShortTerm => self.temporary(table.short),
            Kind::Special => self.special(),
        }
    }
}
