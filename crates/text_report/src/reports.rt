// A text is read into a sheet, and the report of that sheet is written.
ghost use Rattle.std.specs.Prelude.{◌≡◌, vec_capacity};
ghost use Rattle.history.specs.History.{both};
ghost use Rattle.sheet_text.specs.Texts.{places_in};
ghost use Rattle.text_report.specs.TextReports.{FromAnyText, FromText, OfEffect, written_of};

use crate::memory::Memory;
use effect::{EffectName, N, NM, Written};
use load_lines::Names;
use loads::Record;
use norm::{Norm, NormName, Snip85, Sp20, SpecialNorm};
use refusals::Refusal;
use report::write_report;
use sheet_lines::{Layer, TextFault};
use sheet_text::{read_text, text_names};

// What writing came to, as what a text comes to: a refusal is of no line.
fn written(answer: Result<usize, Refusal>) -> Result<usize, TextFault>
    ensures { result ≡ written_of answer }
{
    Layer::Writing.in_line(answer, 0)
}

// The report of a text under a norm, its effects read as the type `E`, written into `out`; its length, or the refusal that is due. After a refusal `out` is as it was.
// Kept: names and norm are two parameters, since names are printed as they stand in the text, and the norm is a type.
pub fn report_as<E: Written, M: SpecialNorm>(
    names: Names,
    norm: &M,
    text: &[u8],
    memory: Vec<Record<E>>,
    places: usize,
    out: &mut [u8],
) -> Result<usize, TextFault>
    ensures { FromText E.Effect.means E.Written.writes names (both (M.Norm.percentages norm.now) (M.SpecialNorm.special norm.now)) (places_in places (vec_capacity memory)) text.now out.old result out.new }
{
    let sheet = read_text::<E>(text, memory, places)?;
    written(write_report(names, norm, &sheet, out))
}

// The same for the effect type that the text names.
fn report_under<M: SpecialNorm>(
    names: Names,
    norm: &M,
    text: &[u8],
    memory: Memory,
    places: usize,
    out: &mut [u8],
) -> Result<usize, TextFault>
    ensures { OfEffect (both (M.Norm.percentages norm.now) (M.SpecialNorm.special norm.now)) (places_in places (vec_capacity memory.forces)) (places_in places (vec_capacity memory.moments)) names text.now out.old result out.new }
{
    let Memory { forces, moments } = memory;
    match names.effect {
        EffectName::N => report_as::<N, M>(names, norm, text, forces, places, out),
        EffectName::Nm => report_as::<NM, M>(names, norm, text, moments, places, out),
    }
}

// The same for the norm and the effect type that the text names.
pub fn report_text(
    text: &[u8],
    memory: Memory,
    places: usize,
    out: &mut [u8],
) -> Result<usize, TextFault>
    ensures { FromAnyText (places_in places (vec_capacity memory.forces)) (places_in places (vec_capacity memory.moments)) text.now out.old result out.new }
{
    let names = text_names(text)?;
    match names.norm {
        NormName::Sp20 => report_under(names, &Sp20, text, memory, places, out),
        NormName::Snip85 => report_under(names, &Snip85, text, memory, places, out),
    }
}
