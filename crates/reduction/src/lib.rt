// The reduction of a floor load for the area that it is taken over and for the number of storeys.
// A factor is in ten-thousandths, an area in hundredths of a square metre.
#![tactic(auto)]

ghost use Rattle.reduction.specs.Answer.{Answer};

use class::Class;
use extent::Extent;
use refusals::Refusal;

mod class;
mod extent;
mod formula;

// The factor for a class, an area and a number of storeys. Class 0 is not reduced, whatever area and storeys are.
// Kept: three numbers, since a caller may have any three; class 0 has no area and no storeys to check, so an `Extent` is made here.
pub fn factor(class: u64, area: u64, storeys: u64) -> Result<u64, Refusal>
    ensures { Answer class area storeys result }
{
    let class = Class::try_from(class)?;
    match class.formula() {
        None => Ok(10_000),
        Some(formula) => Ok(formula.factor(Extent::new(area, storeys)?)),
    }
}

#[cfg(test)]
mod tests {
    use super::*;

    #[test]
    fn figures(rt: HostRuntime) {
        assert_eq!(rt; factor(1, 900, 1), Ok(10_000));
        assert_eq!(rt; factor(1, 901, 1), Ok(9_997));
        assert_eq!(rt; factor(1, 2_000, 1), Ok(8_025));
        assert_eq!(rt; factor(1, 3_600, 4), Ok(5_500));
        assert_eq!(rt; factor(1, 2_000, 3), Ok(6_324));
        assert_eq!(rt; factor(2, 14_400, 1), Ok(7_500));
    }

    // the first and the last of each range; the areas below 9 and below 36 square metres count as these
    #[test]
    fn ends_of_the_ranges(rt: HostRuntime) {
        assert_eq!(rt; factor(1, 1, 1), Ok(10_000));
        assert_eq!(rt; factor(1, 1_000_000, 40), Ok(4_029));
        assert_eq!(rt; factor(2, 1, 1), Ok(10_000));
        assert_eq!(rt; factor(2, 3_600, 1), Ok(10_000));
        assert_eq!(rt; factor(2, 3_601, 1), Ok(10_000));
        assert_eq!(rt; factor(2, 1_000_000, 40), Ok(5_048));
        assert_eq!(rt; factor(0, 0, 0), Ok(10_000));
        assert_eq!(rt; factor(0, u64::MAX, u64::MAX), Ok(10_000));
    }

    #[test]
    fn outside_the_ranges(rt: HostRuntime) {
        for (class, area, storeys) in [
            (1, 0, 1),
            (1, 1_000_001, 1),
            (2, 1, 0),
            (2, 1, 41),
            (3, 1, 1),
            (u64::MAX, 1, 1),
        ] {
            assert_eq!(rt; factor(class, area, storeys), Err(Refusal::Reduction));
        }
    }
}
