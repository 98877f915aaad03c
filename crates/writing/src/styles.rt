// Ways to write a number.
ghost use Rattle.std.specs.Prelude.{ℕ, List, ℤ};
ghost use Rattle.std.specs.Fmt.{signed_decimal};
ghost use Rattle.writing.specs.Writing.{Writes, signed_fixed8};

use crate::writer::Writer;

pub trait Style {
    ghost shown: { ℤ → List ℕ };

    fn show(out: &mut Writer, z: i64)
        ensures { Writes out.old (shown z) out.new };
}

// In base ten.
pub struct Whole;

// Hundred-millionths, in units with eight decimals.
pub struct Decimals;

impl Style for Whole {
    ghost shown = { signed_decimal };

    fn show(out: &mut Writer, z: i64) {
        out.number(z);
    }
}

impl Style for Decimals {
    ghost shown = { signed_fixed8 };

    fn show(out: &mut Writer, z: i64) {
        out.signed_fixed(z);
    }
}
