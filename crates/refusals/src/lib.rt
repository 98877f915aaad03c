// Why a call is refused. Each case has the number by which users know it.
#![tactic(auto)]

ghost use Rattle.std.specs.Prelude.{◌≡◌, Some};
ghost use Rattle.refusals.specs.Numbers.{number_of, refused_text};

use std::fmt;

#[derive(Clone, Copy, PartialEq, Eq, Debug)]
pub enum Refusal {
    // a record's number is not 1 to 9,999
    RecordNumber = 1,
    // a kind letter is none of P, L, T and S
    KindLetter = 2,
    // a load factor is outside its range
    LoadFactor = 3,
    // class, area or storey count are against the rules
    Reduction = 4,
    // a group is against the rules
    Group = 5,
    // an effect is beyond its reach
    Reach = 6,
    // a record with this number is already there
    NumberTaken = 7,
    // no record has this number
    NumberMissing = 8,
    // every place of the sheet is taken
    SheetFull = 9,
    // a special combination is asked for, and no record is special
    NoSpecialLoad = 10,
    // a text is too long, or one of its header lines is wrong
    Header = 11,
    // a body line is malformed, missing or too many
    BodyLine = 12,
    // the output is longer than its buffer
    OutputTooLong = 13,
    // a value of a column is outside its range
    ColumnValue = 14,
}

impl Refusal {
    // The number of this refusal.
    // Kept: `refusal.number()` says at a call what `u8::from(refusal)` leaves out, and the enum holds the numbers either way.
    pub fn number(self) -> u8
        ensures { result ≡ number_of self }
    {
        self as u8
    }
}

impl fmt::Display for Refusal {
    ghost output = { λ x. Some (refused_text x) };

    fn fmt<W: fmt::Write>(&self, f: &mut fmt::Formatter<W>) -> fmt::Result {
        write!(f, "REFUSED {}", self.number())
    }
}

#[cfg(test)]
mod tests {
    use super::*;
    use std::test::Fail;

    #[test]
    fn numbers(rt: HostRuntime) {
        assert_eq!(rt; Refusal::RecordNumber.number(), 1);
        assert_eq!(rt; Refusal::Reduction.number(), 4);
        assert_eq!(rt; Refusal::ColumnValue.number(), 14);
    }

    #[test]
    fn a_refusal_is_shown(rt: HostRuntime) -> Result<(), Fail> {
        let text = Refusal::ColumnValue.to_string(rt.alloc())?;
        assert_eq!(rt; text.as_str(), "REFUSED 14");
        Ok(())
    }
}
