// What is said of a call's outcome.
ghost use Rattle.refusals.specs.Numbers.{number_of};
ghost use Rattle.history.specs.History.{asked, both};
ghost use Rattle.writing.specs.Writing.{Writes};
ghost use Rattle.answer_lines.specs.Lines.{answer_text};
ghost use Rattle.call_lines.specs.Replies.{done_text, refused_text, reply_text};

use answer_lines::write_answer;
use combination::{Answer, Question};
use effect::Written;
use history::{Call, Outcome};
use loads::Record;
use norm::{InSpecial, SpecialNorm};
use refusals::Refusal;
use writing::{Text, Writer};

// A call and its outcome, under a norm and over the records that the sheet held.
#[derive(Drop)]
pub struct Reply<'a, E, M> {
    pub norm: &'a M,
    pub records: &'a [Record<E>],
    pub call: Call<E>,
    pub outcome: Outcome<E>,
}

fn write_done(out: &mut Writer)
    ensures { Writes out.old done_text out.new }
{
    out.word(b"DONE\n");
}

fn write_refused(out: &mut Writer, refusal: Refusal)
    ensures { Writes out.old (refused_text (number_of refusal)) out.new }
{
    out.word(b"REFUSED ");
    out.number(refusal.number());
    out.put(b'\n');
}

impl<'a, E: Written, M: SpecialNorm> Reply<'a, E, M> {
    // The answer to a question, under the norm that the question asks.
    fn write_asked(&self, out: &mut Writer, question: Question, answer: &Answer<E>)
        ensures { Writes out.old (answer_text E.Written.writes (asked (both (M.Norm.percentages self.now.norm.now) (M.SpecialNorm.special self.now.norm.now)) question) question self.now.records.now answer.now) out.new }
    {
        let (norm, records) = (self.norm, self.records);
        match question {
            Question::Basic => write_answer(out, question, norm, records, answer),
            Question::WithSpecial => write_answer(out, question, &InSpecial(norm), records, answer),
        }
    }
}

impl<'a, E: Written, M: SpecialNorm> Text for Reply<'a, E, M> {
    ghost text = { λ x. reply_text E.Written.writes (both (M.Norm.percentages x.norm.now) (M.SpecialNorm.special x.norm.now)) x.records.now x.call x.outcome };

    fn write_to(&self, out: &mut Writer) {
        match (self.outcome, self.call) {
            (Err(refusal), _) => write_refused(out, refusal),
            (Ok(Some(answer)), Call::Ask(question)) => self.write_asked(out, question, &answer),
            _ => write_done(out),
        }
    }
}
