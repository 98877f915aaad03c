// The lines of the records.
ghost use Rattle.std.specs.Prelude.{◌≡◌, [], length};
ghost use Rattle.sheet_lines.specs.Bodies.{body_line, body_lines};
ghost use Rattle.sheet_writing.specs.Sheets.{counts_in, of_kind};
ghost use Rattle.writing.specs.Writing.{Writes};

use effect::Written;
use load_lines::write_load;
use loads::{Kind, Record};
use sheet_lines::Counts;
use writing::Writer;

// How many records are of a kind.
fn count_of<E>(records: &[Record<E>], kind: Kind) -> u64
    ensures { result ≡ length (of_kind kind records.now) }
{
    records.iter().filter(|record| record.kind == kind).count() as u64
}

pub(crate) fn counts_of<E>(records: &[Record<E>]) -> Counts
    ensures { result ≡ counts_in records.now }
{
    Counts {
        permanent: count_of(records, Kind::Permanent),
        long_term: count_of(records, Kind::LongTerm),
        short_term: count_of(records, Kind::ShortTerm),
        special: count_of(records, Kind::Special),
    }
}

// The line of a record.
fn write_body<E: Written>(out: &mut Writer, of: &Record<E>)
    ensures { Writes out.old (body_line E.Written.writes (of.now.number, of.now.load) []) out.new }
{
    out.number(of.number);
    write_load(out, &of.load);
    out.put(b'\n');
}

// The lines of the records of a kind, in the order of their entry.
pub(crate) fn write_kind<E: Written>(out: &mut Writer, kind: Kind, records: &[Record<E>])
    ensures { Writes out.old (body_lines E.Written.writes (of_kind kind records.now)) out.new }
{
    for record in records {
        if record.kind == kind {
            write_body(out, record);
        }
    }
}
