// Numbers with eight decimals.
ghost use Rattle.std.specs.Prelude.{Some};
ghost use Rattle.lines.specs.Fixed.{fixed8};

use std::fmt;

// A count of hundred-millionths, shown in units with eight decimals.
#[derive(Clone, Copy, Debug, PartialEq)]
pub struct Fixed8(pub u64);

impl fmt::Display for Fixed8 {
    ghost output = { λ x. Some (fixed8 x.0) };

    fn fmt<W: fmt::Write>(&self, f: &mut fmt::Formatter<W>) -> fmt::Result {
        let whole = self.0 / 100_000_000;
        let decimals = self.0 % 100_000_000;
        write!(f, "{whole}.{decimals:08}")
    }
}
