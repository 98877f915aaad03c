// One call on a sheet.
ghost use Rattle.std.specs.Prelude.{◌≡◌};
ghost use Rattle.norm.specs.Percentages.{Percentages};
ghost use Rattle.sheet.specs.Held.{held, places_of};
ghost use Rattle.sheet.specs.Ledger.{Performs};
ghost use Rattle.history.specs.History.{both};
ghost use Rattle.history.specs.Law.{Performed};
ghost use Rattle.history.specs.Steps.{Stepped};

use crate::asking::ask;
use crate::calls::Call;
use crate::outcomes::Outcome;
use effect::Effect;
use norm::{Norm, SpecialNorm};
use refusals::Refusal;
use sheet::{Change, Sheet};

// A call that changes the sheet.
pub(crate) fn change<E: Effect>(sheet: &mut Sheet<E>, call: Change<E>) -> Result<(), Refusal>
    ensures ledger { Performs E.means (places_of sheet.old) (held sheet.old) call result (held sheet.new) }
    ensures places { places_of sheet.new ≡ places_of sheet.old }
{
    match call {
        Change::Enter(entry) => sheet.enter(entry),
        Change::Alter(entry) => sheet.alter(entry),
        Change::Strike(number) => sheet.strike(number),
    }
}

fn step<E: Effect, M: SpecialNorm>(norm: &M, sheet: &mut Sheet<E>, call: Call<E>) -> Outcome<E>
    ensures stepped { Stepped E.Effect.means (both (M.Norm.percentages norm.now) (M.SpecialNorm.special norm.now)) (places_of sheet.old) (held sheet.old) call result (held sheet.new) }
    ensures places { places_of sheet.new ≡ places_of sheet.old }
{
    match call {
        Call::Change(call) => change(sheet, call).map(|()| None),
        Call::Ask(question) => ask(norm, sheet, question).map(Some),
    }
}

// One call. Whatever history the sheet has, it then has that history and this call, and the law holds of it.
pub fn perform<E: Effect, M: SpecialNorm>(
    norm: &M,
    sheet: &mut Sheet<E>,
    call: Call<E>,
) -> Outcome<E>
    ensures law { Performed E.Effect.means (both (M.Norm.percentages norm.now) (M.SpecialNorm.special norm.now)) (places_of sheet.old) (held sheet.old) call result (held sheet.new) }
    ensures places { places_of sheet.new ≡ places_of sheet.old }
{
    step(norm, sheet, call)
}
