// What is set for a storey.
ghost use Rattle.std.specs.Prelude.{◌≤◌};

use refusals::Refusal;

// A class, an area in hundredths of a square metre and a floor load in newtons per square metre, each in its range.
#[derive(Clone, Copy)]
pub struct Storey {
    pub class: u64,
    pub area: u64,
    pub load: u64,
    pub ghost class_high: { class ≤ 2 },
    pub ghost area_low: { 1 ≤ area },
    pub ghost area_high: { area ≤ 1000000 },
    pub ghost load_high: { load ≤ 50000 },
}

impl Storey {
    ghost use Rattle.column.specs.Answer.{NewStorey};

    // A storey of any values that are in their ranges.
    pub(crate) fn new(class: u64, area: u64, load: u64) -> Result<Storey, Refusal>
        ensures { NewStorey class area load result }
    {
        if class > 2 || area < 1 || area > 1_000_000 || load > 50_000 {
            return Err(Refusal::ColumnValue);
        }
        Ok(Storey { class, area, load })
    }
}
