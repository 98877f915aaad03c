// Reading the text of one number: base ten, one to ten digits, no leading zero.
ghost use Rattle.std.specs.Prelude.{◌≡◌, ◌≤◌, ℤ, length, pos, unsigned_abs, MatchOption};
ghost use Rattle.std.specs.Str.Parse.{AllDigits, digits_value};
ghost use Rattle.std.proofs.Common.{ap};
ghost use Rattle.lines.specs.Numeral.{Legible, Spelt, numeral, starts_loosely};

// A type of numbers that stand in fields.
// Kept: not `FromStr`, which reads a plus and leading zeros and any number of digits.
pub trait Numeral: Copy {
    // the number that a value is
    ghost value: { Self → ℤ };

    // The number that the whole of `text` writes.
    fn from_text(text: &[u8]) -> Option<Self>
        ensures { Spelt (Legible value) (numeral value) text.now result };

    ghost apart: { (a b : Self) → value a ≡ value b → a ≡ b };
}

// Whether a text starts as no number is written: a plus first, or a 0 before another byte.
fn starts_loosely(text: &[u8]) -> bool
    ensures { result ≡ starts_loosely text.now }
{
    matches!(text, [b'+', ..] | [b'0', _, ..])
}

// The value of a text of digits; None where another byte is among them.
// Kept: digit by digit, since `parse` wants a `str`: by `from_utf8` and `parse` the program `take_down` took 1.9 times the time.
fn from_digits(text: &[u8]) -> Option<u64>
    requires { length text.now ≤ 10 }
    ensures { MatchOption result (AllDigits 10 text.now → ⊥) (λ n. AllDigits 10 text.now × (n ≡ digits_value 10 text.now)) }
{
    let mut n = 0;
    for b in text {
        let digit = char::from(*b).to_digit(10)?;
        n = n * 10 + u64::from(digit);
    }
    Some(n)
}

impl Numeral for u64 {
    ghost value = { pos };

    ghost apart = { λ a b e. ap unsigned_abs e };

    fn from_text(text: &[u8]) -> Option<u64> {
        if text.is_empty() || text.len() > 10 || starts_loosely(text) {
            return None;
        }
        from_digits(text)
    }
}

// Here a minus may stand before a number that is not 0.
impl Numeral for i64 {
    ghost value = { λ z. z };

    ghost apart = { λ a b e. e };

    fn from_text(text: &[u8]) -> Option<i64> {
        match text {
            [b'-', digits @ ..] => match u64::from_text(digits)? {
                0 => None,
                n => Some(-(n as i64)),
            },
            _ => Some(u64::from_text(text)? as i64),
        }
    }
}
