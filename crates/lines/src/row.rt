// Reading rows and lines of numbers.
ghost use Rattle.std.specs.Prelude.{length, decimal, nat_lt};
ghost use Rattle.lines.specs.Numeral.{Legible, Short, numeral};
ghost use Rattle.lines.specs.Reading.{Ends, EndsAfter, Reads, ReadsLine, Row, fields_of, filled, led, numbers_line, spaced};

use crate::numeral::Numeral;
use crate::token::Tokens;

impl<'a> Tokens<'a> {
    // The number at place `i` of a line: the first right here, the others each after one blank.
    fn item<N: Numeral>(&mut self, i: usize) -> Option<N>
        ensures { Reads (Legible N.value) (led (nat_lt 0 i) (numeral N.value)) Ends self.old result self.new }
    {
        self.number_after(i > 0)
    }

    // As many numbers as `out` has places, each after one blank.
    // What `out` holds where they are not read is left free.
    // Kept: no heap, and how many numbers there are is no const argument; the form is that of `read_exact`.
    pub fn fields_into<N: Numeral>(&mut self, out: &mut [N]) -> Option<()>
        ensures { Reads (Row (Legible N.value) (length out.old)) (spaced (numeral N.value)) (EndsAfter (length out.old)) self.old (filled result out.new) self.new }
    {
        for (i, place) in out.iter_mut().enumerate() {
            *place = self.item(i + 1)?;
        }
        Some(())
    }

    // `K` numbers, each after one blank.
    // Kept: of a missing number `array::try_from_fn` promises nothing about those read before, so that there is no such row would not follow.
    pub fn fields<const K: usize>(&mut self) -> Option<[u64; K]>
        ensures { Reads (Row Short K) (spaced decimal) (EndsAfter K) self.old result self.new }
    {
        let mut out = [0u64; K];
        self.fields_into(&mut out)?;
        Some(out)
    }

    // The same as `fields_into`, but the first number stands right here.
    fn row_into(&mut self, out: &mut [u64]) -> Option<()>
        ensures { Reads (Row Short (length out.old)) (fields_of decimal) (EndsAfter (length out.old)) self.old (filled result out.new) self.new }
    {
        if out.is_empty() {
            return Some(());
        }
        out[0] = self.item(0)?;
        self.fields_into(&mut out[1..])
    }

    // A line of `K` numbers: the first right here, the others each after one blank, and the line end.
    // A line of none is its line end alone.
    pub fn numbers<const K: usize>(&mut self) -> Option<[u64; K]>
        ensures { ReadsLine (Row Short K) numbers_line self.old result self.new }
    {
        let mut out = [0u64; K];
        self.row_into(&mut out)?;
        self.line_end()?;
        Some(out)
    }
}
