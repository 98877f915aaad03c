// The two questions.
ghost use Rattle.std.specs.Prelude.{List, Decides};
ghost use Rattle.combination.specs.Choices.{Admissible};
ghost use Rattle.combination.specs.Worst.{NoSpecial};
ghost use Rattle.combination.specs.declared.picks.Pick.{Pick as PickOf};
ghost use Rattle.combination.specs.declared.questions.Question.TheVariants.{Basic, WithSpecial};
ghost use Rattle.questions.specs.Engine.{Finds};
ghost use Rattle.questions.specs.Promises.{AnswersSound, AnswersSpecial};

use crate::join::join;
use crate::weights::weigh;
use crate::worst::Search;
use combination::{Answer, Pick, Question};
use effect::Effect;
use loads::{Kind, Record};
use norm::{InSpecial, Norm, SpecialNorm};

// What is shown where records break a rule or no choice is admissible.
fn blank<E: Effect>() -> Answer<E> {
    Answer {
        effect: E::zero(),
        picks: [Pick::Out; 32],
    }
}

// The worst combination; None where the records break a rule or no choice is admissible.
fn found<E: Effect, M: Norm>(
    norm: &M,
    question: Question,
    records: &[Record<E>],
) -> Option<Answer<E>>
    ensures { Finds E.Effect.means (M.Norm.percentages norm.now) question records.now result }
{
    let loads = weigh(records)?;
    let search = Search {
        norm,
        question,
        loads: &loads,
    };
    let best = search.worst()?;
    Some(Answer {
        effect: best.effect,
        picks: join(&loads, &best.parts),
    })
}

// The worst combination, where a choice is admissible.
fn answer<E: Effect, M: Norm>(norm: &M, question: Question, records: &[Record<E>]) -> Answer<E>
    ensures { (picks : List PickOf) → Admissible question records.now picks → AnswersSound E.Effect.means (M.Norm.percentages norm.now) question records.now result }
{
    found(norm, question, records).unwrap_or(blank())
}

// The worst basic combination.
// Kept: norm and records are two parameters: any norm may be asked of any records, and a value of both would be made for the call alone.
pub fn basic<E: Effect, M: Norm>(norm: &M, records: &[Record<E>]) -> Answer<E>
    ensures { AnswersSound E.Effect.means (M.Norm.percentages norm.now) Basic records.now result }
{
    answer(norm, Question::Basic, records)
}

// Whether there is no special load.
fn has_no_special<E: Effect>(records: &[Record<E>]) -> bool
    ensures { Decides result (NoSpecial records.now) }
{
    records.iter().all(|record| record.kind != Kind::Special)
}

// The worst combination with a special load, where there is one.
fn with_special<E: Effect, M: SpecialNorm>(norm: &M, records: &[Record<E>]) -> Answer<E>
    ensures { (NoSpecial records.now → ⊥) → AnswersSound E.Effect.means (M.SpecialNorm.special norm.now) WithSpecial records.now result }
{
    let norm = InSpecial(norm);
    answer(&norm, Question::WithSpecial, records)
}

// The worst combination with a special load; None where there is no special load.
pub fn special<E: Effect, M: SpecialNorm>(norm: &M, records: &[Record<E>]) -> Option<Answer<E>>
    ensures { AnswersSpecial E.Effect.means (M.SpecialNorm.special norm.now) records.now result }
{
    // Kept: by `if`, since `then` with a closure is no plainer and needs an answer by hand.
    if has_no_special(records) {
        None
    } else {
        Some(with_special(norm, records))
    }
}
