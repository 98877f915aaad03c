// What a floor load is taken over.
ghost use Rattle.std.specs.Prelude.{◌≤◌};

use refusals::Refusal;

// An area, in hundredths of a square metre, and a number of storeys.
#[derive(Clone, Copy)]
pub(crate) struct Extent {
    pub(crate) area: u64,
    pub(crate) storeys: u64,
    ghost area_low: { 1 ≤ area },
    ghost area_high: { area ≤ 1000000 },
    ghost storeys_low: { 1 ≤ storeys },
    ghost storeys_high: { storeys ≤ 40 },
}

impl Extent {
    ghost use Rattle.reduction.specs.Extents.{Checked};

    // Any area and number of storeys that are in range.
    pub(crate) fn new(area: u64, storeys: u64) -> Result<Extent, Refusal>
        ensures { Checked area storeys result }
    {
        if !(1..=1_000_000).contains(&area) || !(1..=40).contains(&storeys) {
            return Err(Refusal::Reduction);
        }
        Ok(Extent { area, storeys })
    }
}
