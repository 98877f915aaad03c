// The first two lines.
ghost use Rattle.std.specs.Prelude.{[], ◌∷◌, ◌++◌, decimal};
ghost use Rattle.loads.specs.Letters.{letter_of};
ghost use Rattle.sheet_lines.specs.Heading.{counts_line, names_line};
ghost use Rattle.writing.specs.Writing.{Writes};

use load_lines::Names;
use loads::Kind;
use sheet_lines::Counts;
use words::Word;
use writing::Writer;

// The line of the names.
pub fn write_names(out: &mut Writer, names: Names)
    ensures { Writes out.old (names_line names []) out.new }
{
    out.word(names.norm.word().as_bytes());
    out.put(b' ');
    out.word(names.effect.word().as_bytes());
    out.put(b'\n');
}

// The letter of a kind, and its count.
fn write_count(out: &mut Writer, kind: Kind, count: u64)
    ensures { Writes out.old (letter_of kind ∷ (32 ∷ decimal count)) out.new }
{
    out.put(kind.letter() as u8);
    out.field(count);
}

// The line of the counts.
// Kept: each count has a field of its own name, and no blank stands before the first; a loop over the kinds would need places and a flag.
pub(crate) fn write_counts(out: &mut Writer, counts: Counts)
    ensures { Writes out.old (counts_line counts []) out.new }
{
    write_count(out, Kind::Permanent, counts.permanent);
    out.put(b' ');
    write_count(out, Kind::LongTerm, counts.long_term);
    out.put(b' ');
    write_count(out, Kind::ShortTerm, counts.short_term);
    out.put(b' ');
    write_count(out, Kind::Special, counts.special);
    out.put(b'\n');
}
