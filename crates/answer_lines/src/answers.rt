// An answer to a question.
ghost use Rattle.std.specs.Prelude.{[], ◌∷◌, ◌++◌};
ghost use Rattle.lines.specs.Reading.{spaced};
ghost use Rattle.writing.specs.Writing.{Writes, signed_fixed8};
ghost use Rattle.answer_lines.specs.Lines.{answer_text};

use crate::choices::write_choice;
use combination::{Answer, Choice, Question};
use effect::Written;
use load_lines::write_effect;
use loads::Record;
use norm::Norm;
use words::Word;
use writing::{Decimals, Writer};

// The line of the question, by its word.
fn write_head<E: Written>(out: &mut Writer, word: &[u8], effect: E)
    ensures { Writes out.old (word.now ++ spaced signed_fixed8 (E.Written.writes.numbers effect) (10 ∷ [])) out.new }
{
    out.word(word);
    write_effect::<E, Decimals>(out, effect);
    out.put(b'\n');
}

// An answer to a question, with the percentages of the norm that it asks; the special question asks a norm as `InSpecial`.
pub fn write_answer<E: Written, M: Norm>(
    out: &mut Writer,
    question: Question,
    norm: &M,
    records: &[Record<E>],
    answer: &Answer<E>,
)
    ensures { Writes out.old (answer_text E.Written.writes (M.Norm.percentages norm.now) question records.now answer.now) out.new }
{
    let picks = &answer.picks;
    let choice = Choice { records, picks };
    write_head(out, question.word().as_bytes(), answer.effect);
    write_choice(out, choice.table(norm), &choice);
}
