// Writing numbers.
ghost use Rattle.std.specs.Prelude.{◌+◌, ◌%◌, [], ◌∷◌, decimal};
ghost use Rattle.lines.specs.Fixed.{fixed8, padded};
ghost use Rattle.lines.specs.Reading.{spaced};
ghost use Rattle.writing.specs.Writing.{Writes, signed_fixed8};

use crate::writer::Writer;
use itoa::{Buffer, Integer};

impl Writer<'_> {
    // `n` in base ten, with a minus only below zero.
    pub fn number<I: Integer>(&mut self, n: I)
        ensures { Writes self.old (I.text n) self.new }
    {
        let mut buffer = Buffer::new();
        self.word(buffer.format(n).as_bytes());
    }

    // The last digit of `n`.
    fn digit(&mut self, n: u64)
        ensures { Writes self.old ((48 + n % 10) ∷ []) self.new }
    {
        self.put(b'0' + (n % 10) as u8);
    }

    // The last eight digits of `n`, leading zeros too.
    // Kept: digit by digit, since itoa writes no leading zeros and a `Writer` takes no formatter; `Fixed8` shows the same through `fmt`.
    fn decimals(&mut self, n: u64)
        ensures { Writes self.old (padded 8 n) self.new }
    {
        for k in (0..8).rev() {
            self.digit(n / 10u64.pow(k));
        }
    }

    // `n` hundred-millionths in units, with eight decimals.
    fn fixed(&mut self, n: u64)
        ensures { Writes self.old (fixed8 n) self.new }
    {
        self.number(n / 100_000_000);
        self.put(b'.');
        self.decimals(n);
    }

    // `z` hundred-millionths in units, with eight decimals and a minus only below zero.
    pub fn signed_fixed(&mut self, z: i64)
        ensures { Writes self.old (signed_fixed8 z) self.new }
    {
        if z < 0 {
            self.put(b'-');
        }
        self.fixed(z.unsigned_abs());
    }

    // `n` after one blank.
    pub fn field(&mut self, n: u64)
        ensures { Writes self.old (32 ∷ decimal n) self.new }
    {
        self.put(b' ');
        self.number(n);
    }

    // Numbers, each after one blank.
    pub fn fields(&mut self, numbers: &[u64])
        ensures { Writes self.old (spaced decimal numbers.now []) self.new }
    {
        for n in numbers {
            self.field(*n);
        }
    }
}
