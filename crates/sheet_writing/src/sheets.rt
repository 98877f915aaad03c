// The whole text of a sheet.
ghost use Rattle.sheet.specs.Held.{held};
ghost use Rattle.sheet_writing.specs.Sheets.{sheet_text};
ghost use Rattle.writing.specs.Writing.{Fitted};

use crate::bodies::{counts_of, write_kind};
use crate::headings::{write_counts, write_names};
use effect::Written;
use load_lines::Names;
use loads::{Kind, Record};
use refusals::Refusal;
use sheet::Sheet;
use writing::{Text, Writer, write_whole};

// Records under the names of a norm and an effect type.
#[derive(Drop)]
struct SheetForm<'a, E> {
    names: Names,
    records: &'a [Record<E>],
}

impl<'a, E: Written> Text for SheetForm<'a, E> {
    ghost text = { λ x. sheet_text E.Written.writes x.names x.records.now };

    // Kept: four calls show the order of the kinds; a loop over an array of the kinds would name all four as well.
    fn write_to(&self, out: &mut Writer) {
        let records = self.records;
        write_names(out, self.names);
        write_counts(out, counts_of(records));
        write_kind(out, Kind::Permanent, records);
        write_kind(out, Kind::LongTerm, records);
        write_kind(out, Kind::ShortTerm, records);
        write_kind(out, Kind::Special, records);
    }
}

// Writes the text of a sheet into `out` and gives its length; a buffer that is too short is refused as `OutputTooLong` and stays as it is.
pub fn write_sheet<E: Written>(
    names: Names,
    sheet: &Sheet<E>,
    out: &mut [u8],
) -> Result<usize, Refusal>
    ensures { Fitted (sheet_text E.Written.writes names (held sheet.now)) out.old result out.new }
{
    let records = sheet.records();
    write_whole(&SheetForm { names, records }, out)
}
