// One call under a norm that has no answer for special combinations: the special question is not among the calls.
// Whatever percentages one puts in the place of that answer, the law holds.
ghost use Rattle.std.specs.Prelude.{◌≡◌};
ghost use Rattle.norm.specs.Percentages.{Percentages};
ghost use Rattle.sheet.specs.Held.{held, places_of};
ghost use Rattle.history.specs.BasicLaw.{PerformedBasic, call_of};
ghost use Rattle.history.specs.History.{both};
ghost use Rattle.history.specs.Steps.{Stepped};

use crate::asking::basic;
use crate::calls::BasicCall;
use crate::outcomes::Outcome;
use crate::runs::change;
use effect::Effect;
use norm::Norm;
use sheet::Sheet;

fn step_basic<E: Effect, M: Norm>(norm: &M, sheet: &mut Sheet<E>, call: BasicCall<E>) -> Outcome<E>
    ensures stepped { (special : Percentages) → Stepped E.Effect.means (both (M.Norm.percentages norm.now) special) (places_of sheet.old) (held sheet.old) (call_of call) result (held sheet.new) }
    ensures places { places_of sheet.new ≡ places_of sheet.old }
{
    match call {
        BasicCall::Change(call) => change(sheet, call).map(|()| None),
        BasicCall::Basic => Ok(Some(basic(norm, sheet))),
    }
}

// One call other than the special question. Whatever history of such calls the sheet has, it then has that history and this call, and the law holds of it.
pub fn perform_basic<E: Effect, M: Norm>(
    norm: &M,
    sheet: &mut Sheet<E>,
    call: BasicCall<E>,
) -> Outcome<E>
    ensures law { (special : Percentages) → PerformedBasic E.Effect.means (both (M.Norm.percentages norm.now) special) (places_of sheet.old) (held sheet.old) call result (held sheet.new) }
    ensures places { places_of sheet.new ≡ places_of sheet.old }
{
    step_basic(norm, sheet, call)
}
