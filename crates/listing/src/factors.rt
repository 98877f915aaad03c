// The reduction factor of a case, a line `CLASS AREA STOREYS`.
ghost use Rattle.std.specs.Prelude.{◌≡◌, Some};
ghost use Rattle.listing.specs.Factors.{CaseReply, LineReply, no_factor_text, reply_text};
ghost use Rattle.listing.specs.declared.factors.NoFactor.TheVariants.{Malformed, Refused};

use lines::fault::Fault;
use refusals::Refusal;
use std::fmt;

// Why a line has no factor: its case is refused, or it is malformed.
#[derive(Clone, Copy, PartialEq, Debug)]
pub enum NoFactor {
    Refused(Refusal),
    Malformed(Fault),
}

impl From<Refusal> for NoFactor {
    ghost from_gives = { λ e r. r ≡ Refused e };

    fn from(refusal: Refusal) -> NoFactor {
        NoFactor::Refused(refusal)
    }
}

impl From<Fault> for NoFactor {
    ghost from_gives = { λ x r. r ≡ Malformed x };

    fn from(fault: Fault) -> NoFactor {
        NoFactor::Malformed(fault)
    }
}

impl fmt::Display for NoFactor {
    ghost output = { λ e. Some (no_factor_text e) };

    fn fmt<W: fmt::Write>(&self, f: &mut fmt::Formatter<W>) -> fmt::Result {
        match self {
            NoFactor::Refused(refusal) => refusal.fmt(f),
            NoFactor::Malformed(fault) => fault.fmt(f),
        }
    }
}

// The factor of a case, in ten-thousandths.
pub fn case_factor(class: u64, area: u64, storeys: u64) -> Result<u64, NoFactor>
    ensures { CaseReply class area storeys result }
{
    Ok(reduction::factor(class, area, storeys)?)
}

// The factor of a line's case.
pub fn line_factor(line: Result<[u64; 3], Fault>) -> Result<u64, NoFactor>
    ensures { LineReply line result }
{
    let [class, area, storeys] = line?;
    case_factor(class, area, storeys)
}

// What is said of a line: the factor, or why there is none.
#[derive(Clone, Copy, PartialEq, Debug)]
pub struct Reply(pub Result<u64, NoFactor>);

impl fmt::Display for Reply {
    ghost output = { λ r. Some (reply_text r) };

    fn fmt<W: fmt::Write>(&self, f: &mut fmt::Formatter<W>) -> fmt::Result {
        match self.0 {
            Ok(factor) => write!(f, "{factor}"),
            Err(none) => none.fmt(f),
        }
    }
}

#[cfg(test)]
mod tests {
    use super::*;
    use lines::number_lines::NumberLines;
    use std::test::Fail;

    const REFUSED: Result<u64, NoFactor> = Err(NoFactor::Refused(Refusal::Reduction));

    fn malformed(line: usize) -> Result<u64, NoFactor> {
        let refusal = Refusal::BodyLine;
        Err(NoFactor::Malformed(Fault { refusal, line }))
    }

    fn check_replies(text: &[u8], replies: &[Result<u64, NoFactor>]) -> Result<(), Fail> {
        let mut lines = NumberLines::<3>::new(text);
        for reply in replies {
            let line = lines.next().ok_or("a reply is missing")?;
            if line_factor(line) != *reply {
                return Err(Fail::new("another reply"));
            }
        }
        if lines.next().is_some() {
            return Err(Fail::new("a reply too many"));
        }
        Ok(())
    }

    #[test]
    fn each_line_has_its_reply() -> Result<(), Fail> {
        let replies = [Ok(6_324), REFUSED, Ok(10_000)];
        check_replies(b"1 2000 3\n3 1 1\n0 0 0\n", &replies)
    }

    #[test]
    fn a_malformed_line_is_the_last() -> Result<(), Fail> {
        check_replies(b"0 0 0\n1 02 3\n1 2000 3\n", &[Ok(10_000), malformed(2)])?;
        check_replies(b"0 0 0", &[malformed(1)])?;
        check_replies(b"\n", &[malformed(1)])?;
        check_replies(b"", &[])
    }
}
