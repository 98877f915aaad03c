// The two questions, asked of a sheet. They change nothing.
ghost use Rattle.std.specs.Prelude.{Ok};
ghost use Rattle.norm.specs.Percentages.{Percentages};
ghost use Rattle.combination.specs.declared.questions.Question.TheVariants.{Basic, WithSpecial};
ghost use Rattle.sheet.specs.Held.{held, places_of};
ghost use Rattle.history.specs.History.{both};
ghost use Rattle.history.specs.Law.{BothAsked};
ghost use Rattle.history.specs.Outcomes.{answer_of};
ghost use Rattle.history.specs.Steps.{Stepped};
ghost use Rattle.history.specs.declared.calls.Call.TheVariants.{Ask};

use combination::{Answer, Question};
use effect::Effect;
use norm::{Norm, SpecialNorm};
use refusals::Refusal;
use sheet::Sheet;

// The worst basic combination, whatever the norm's second answer, if it has one.
// Kept: norm and sheet stay two parameters: any norm may be asked of any sheet, and a change needs the sheet alone.
pub(crate) fn basic<E: Effect, M: Norm>(norm: &M, sheet: &Sheet<E>) -> Answer<E>
    ensures { (special : Percentages) → Stepped E.Effect.means (both (M.Norm.percentages norm.now) special) (places_of sheet.now) (held sheet.now) (Ask Basic) (answer_of (Ok result)) (held sheet.now) }
{
    questions::basic(norm, sheet.records())
}

// The worst special combination, refused where there is no special load.
pub(crate) fn special<E: Effect, M: SpecialNorm>(
    norm: &M,
    sheet: &Sheet<E>,
) -> Result<Answer<E>, Refusal>
    ensures { Stepped E.Effect.means (both (M.Norm.percentages norm.now) (M.SpecialNorm.special norm.now)) (places_of sheet.now) (held sheet.now) (Ask WithSpecial) (answer_of result) (held sheet.now) }
{
    questions::special(norm, sheet.records()).ok_or(Refusal::NoSpecialLoad)
}

// One question.
pub(crate) fn ask<E: Effect, M: SpecialNorm>(
    norm: &M,
    sheet: &Sheet<E>,
    question: Question,
) -> Result<Answer<E>, Refusal>
    ensures { Stepped E.Effect.means (both (M.Norm.percentages norm.now) (M.SpecialNorm.special norm.now)) (places_of sheet.now) (held sheet.now) (Ask question) (answer_of result) (held sheet.now) }
{
    match question {
        Question::Basic => Ok(basic(norm, sheet)),
        Question::WithSpecial => special(norm, sheet),
    }
}

// One question, asked of two sheets: alike where they have the same design loads, whatever their histories.
pub fn compare<E: Effect, M: SpecialNorm>(
    norm: &M,
    first: &Sheet<E>,
    second: &Sheet<E>,
    question: Question,
) -> (Result<Answer<E>, Refusal>, Result<Answer<E>, Refusal>)
    ensures { BothAsked E.Effect.means (both (M.Norm.percentages norm.now) (M.SpecialNorm.special norm.now)) (places_of first.now) (held first.now) (places_of second.now) (held second.now) question (answer_of result.0) (answer_of result.1) }
{
    (ask(norm, first, question), ask(norm, second, question))
}
