// The report of any sheet.
ghost use Rattle.history.specs.History.{both};
ghost use Rattle.report.specs.Reports.{Reported, report_text, special_text};
ghost use Rattle.sheet.specs.Held.{held, places_of};
ghost use Rattle.writing.specs.Writing.{Writes};

use answer_lines::write_answer;
use combination::{Answer, Question};
use effect::Written;
use history::{worst_basic, worst_special};
use load_lines::Names;
use loads::Record;
use norm::{InSpecial, SpecialNorm};
use refusals::Refusal;
use sheet::Sheet;
use sheet_writing::write_names;
use writing::{Text, Writer, write_whole};

// The answers to both questions, over the records that they were asked of.
#[derive(Drop)]
struct Report<'a, E, M> {
    names: Names,
    norm: &'a M,
    records: &'a [Record<E>],
    basic: Answer<E>,
    special: Result<Answer<E>, Refusal>,
}

impl<'a, E: Written, M: SpecialNorm> Report<'a, E, M> {
    // The answer to the special question, or that there is none.
    fn write_special_part(&self, out: &mut Writer)
        ensures { Writes out.old (special_text E.Written.writes (M.SpecialNorm.special self.now.norm.now) self.now.records.now self.now.special) out.new }
    {
        match &self.special {
            Ok(answer) => {
                write_answer(
                    out,
                    Question::WithSpecial,
                    &InSpecial(self.norm),
                    self.records,
                    answer,
                );
            }
            Err(_) => out.word(b"SPECIAL NONE\n"),
        }
    }
}

impl<'a, E: Written, M: SpecialNorm> Text for Report<'a, E, M> {
    ghost text = { λ x. report_text E.Written.writes x.names (both (M.Norm.percentages x.norm.now) (M.SpecialNorm.special x.norm.now)) x.records.now x.basic x.special };

    fn write_to(&self, out: &mut Writer) {
        write_names(out, self.names);
        write_answer(out, Question::Basic, self.norm, self.records, &self.basic);
        self.write_special_part(out);
    }
}

// Writes the report of a sheet into `out` and gives its length; a buffer that is too short is refused as `OutputTooLong` and stays as it is.
pub fn write_report<'a, E: Written, M: SpecialNorm>(
    names: Names,
    norm: &'a M,
    sheet: &'a Sheet<E>,
    out: &mut [u8],
) -> Result<usize, Refusal>
    ensures { Reported E.Effect.means E.Written.writes names (both (M.Norm.percentages norm.now) (M.SpecialNorm.special norm.now)) (places_of sheet.now) (held sheet.now) out.old result out.new }
{
    let report = Report {
        names,
        norm,
        records: sheet.records(),
        basic: worst_basic(norm, sheet),
        special: worst_special(norm, sheet),
    };
    write_whole(&report, out)
}
