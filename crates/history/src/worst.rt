// The worst combination of a sheet. Asking changes nothing.
ghost use Rattle.sheet.specs.Held.{held, places_of};
ghost use Rattle.history.specs.History.{both};
ghost use Rattle.history.specs.Questions.{BasicAsked, SpecialAsked};

use crate::asking::{basic, special};
use combination::Answer;
use effect::Effect;
use norm::{Norm, SpecialNorm};
use refusals::Refusal;
use sheet::Sheet;

// The worst basic combination.
pub fn worst_basic<E: Effect, M: Norm>(norm: &M, sheet: &Sheet<E>) -> Answer<E>
    ensures { BasicAsked E.Effect.means (M.Norm.percentages norm.now) (places_of sheet.now) (held sheet.now) result }
{
    basic(norm, sheet)
}

// The worst special combination, refused where there is no special load.
pub fn worst_special<E: Effect, M: SpecialNorm>(
    norm: &M,
    sheet: &Sheet<E>,
) -> Result<Answer<E>, Refusal>
    ensures { SpecialAsked E.Effect.means (both (M.Norm.percentages norm.now) (M.SpecialNorm.special norm.now)) (places_of sheet.now) (held sheet.now) result }
{
    special(norm, sheet)
}
