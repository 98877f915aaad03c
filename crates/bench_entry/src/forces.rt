// The two questions, asked of entries and answered by a force.
ghost use Rattle.std.specs.Prelude.{◌≡◌, cond};
ghost use Rattle.effect.specs.Models.{forces};
ghost use Rattle.norm.specs.Tables.{sp20, sp20_special, snip85, snip85_special};
ghost use Rattle.questions.specs.Promises.{AnswersSpecial};
ghost use Rattle.bench_entry.specs.Forces.{AnswersBasic, Asked, force_of, Gives};

use crate::entries::{Entry, read_all};
use combination::Answer;
use effect::N;
use norm::{Norm, Snip85, Sp20, SpecialNorm};

// The worst basic combination of the records that entries write; None where they write none.
fn basic<M: Norm>(norm: &M, entries: &[Entry]) -> Option<Answer<N>>
    ensures { Asked (AnswersBasic (M.Norm.percentages norm.now)) entries.now result }
{
    let records = read_all(entries)?;
    Some(questions::basic(norm, &records[..entries.len()]))
}

// The worst special combination; None also where no record is special.
fn special<M: SpecialNorm>(norm: &M, entries: &[Entry]) -> Option<Answer<N>>
    ensures { Asked (AnswersSpecial forces (M.SpecialNorm.special norm.now)) entries.now result }
{
    let records = read_all(entries)?;
    questions::special(norm, &records[..entries.len()])
}

// The force of an answer; the least number where there is none.
// Kept: the least number where there is no answer, since C knows no Option.
fn force(answer: Option<Answer<N>>) -> i64
    ensures { result ≡ force_of answer }
{
    answer.map_or(i64::MIN, |answer| answer.effect.force)
}

// The worst effect of a basic combination, under SNIP85 or SP20; the least number where the entries write no records.
// Kept: the norm comes as a bool, since these functions are called from C and Rust, which know no norm of ours.
#[unsafe(no_mangle)]
pub extern "C" fn bench_entry_basic(is_snip85: bool, entries: &[Entry]) -> i64
    ensures { Gives (AnswersBasic (cond is_snip85 snip85 sp20)) entries.now result }
{
    if is_snip85 {
        force(basic(&Snip85, entries))
    } else {
        force(basic(&Sp20, entries))
    }
}

// The worst effect of a special combination; the least number also where no record is special.
#[unsafe(no_mangle)]
pub extern "C" fn bench_entry_special(is_snip85: bool, entries: &[Entry]) -> i64
    ensures { Gives (AnswersSpecial forces (cond is_snip85 snip85_special sp20_special)) entries.now result }
{
    if is_snip85 {
        force(special(&Snip85, entries))
    } else {
        force(special(&Sp20, entries))
    }
}
