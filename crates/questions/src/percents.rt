// The percentages that a question asks of a norm.
ghost use Rattle.std.specs.Prelude.{◌≡◌, ◌≤◌};
ghost use Rattle.norm.specs.Percentages.{taken as number_of};
ghost use Rattle.norm.specs.Roles.{role_number};
ghost use Rattle.questions.specs.Items.{Whole};
ghost use Rattle.questions.specs.Parts.{Agrees, granted};

use combination::Percents;
use norm::{Norm, Role, Taken, Term};

// The percentage for a role, where a load has it; otherwise the last one.
fn asked<M: Norm>(norm: &M, taken: Taken, term: Term, role: Role, last: u64) -> u64
    requires { last ≤ 100 }
    ensures needed { role_number role ≤ number_of term taken.long taken.short → result ≡ M.Norm.percentages norm.now term (role_number role) taken.long taken.short }
    ensures whole { result ≤ 100 }
{
    if role.number() <= taken.of(term) {
        norm.percent(term, role.number(), taken)
    } else {
        last
    }
}

// The percentages of a term for these numbers; a role that no load has keeps the last one.
pub(crate) fn percents_for<M: Norm>(norm: &M, taken: Taken, term: Term, last: Percents) -> Percents
    requires { Whole last }
    ensures agrees { Agrees (number_of term taken.long taken.short) result (granted (M.Norm.percentages norm.now) term taken.long taken.short) }
    ensures whole { Whole result }
{
    Percents {
        leading: asked(norm, taken, term, Role::Leading, last.leading),
        second: asked(norm, taken, term, Role::Second, last.second),
        other: asked(norm, taken, term, Role::Other, last.other),
    }
}
