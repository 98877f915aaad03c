// A record as one line of fields.
ghost use Rattle.std.specs.Prelude.{[], ◌∷◌, ◌++◌, Some, decimal};
ghost use Rattle.std.specs.Fmt.{WritesOnOk, signed_decimal};
ghost use Rattle.lines.specs.Reading.{spaced};
ghost use Rattle.calls.specs.Records.{record_start, record_text};

use effect::Written;
use load_lines::{numbers_of, write_load};
use loads::{Kind, Record};
use std::fmt;
use writing::{Text, Writer};

// A record as its fields, split by one blank: shown without a line end, written as a text with it.
#[derive(Clone, Copy)]
pub struct RecordLine<E>(pub Record<E>);

// The number of a record and the letter of its kind.
fn show_start<W: fmt::Write>(number: u64, kind: Kind, f: &mut fmt::Formatter<W>) -> fmt::Result
    ensures { WritesOnOk W.Write.write_str_gives f.old result (record_start number kind) f.new }
{
    let letter = kind.letter();
    write!(f, "{number} {letter}")
}

// Numbers, each after one blank.
fn show_numbers<W: fmt::Write>(numbers: &[u64], f: &mut fmt::Formatter<W>) -> fmt::Result
    ensures { WritesOnOk W.Write.write_str_gives f.old result (spaced decimal numbers.now []) f.new }
{
    for n in numbers {
        write!(f, " {n}")?;
    }
    Ok(())
}

// The numbers of an effect, each after one blank.
fn show_effect<E: Written, W: fmt::Write>(effect: E, f: &mut fmt::Formatter<W>) -> fmt::Result
    ensures { WritesOnOk W.Write.write_str_gives f.old result (spaced signed_decimal (E.Written.writes.numbers effect) []) f.new }
{
    // Kept: a value gives its numbers by place, since its type says how many there are, and no slice of them stands in memory.
    for place in 0..E::count() {
        let z = effect.number(place);
        write!(f, " {z}")?;
    }
    Ok(())
}

impl<E: Written> fmt::Display for RecordLine<E> {
    ghost output = { λ x. Some (record_text E.writes x.0) };

    fn fmt<W: fmt::Write>(&self, f: &mut fmt::Formatter<W>) -> fmt::Result {
        show_start(self.0.number, self.0.kind, f)?;
        show_numbers(&numbers_of(&self.0.load), f)?;
        show_effect(self.0.load.effect, f)
    }
}

// Kept: `Display` for a program's stream and `Text` for a lent buffer, since `Display` promises nothing where `fmt` gives an error.
impl<E: Written> Text for RecordLine<E> {
    ghost text = { λ x. record_text E.Written.writes x.0 ++ (10 ∷ []) };

    fn write_to(&self, out: &mut Writer) {
        out.number(self.0.number);
        out.put(b' ');
        out.put(self.0.kind.letter() as u8);
        write_load(out, &self.0.load);
        out.put(b'\n');
    }
}
