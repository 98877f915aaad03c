// The loads of a column: what is set for each storey, and the load that comes down to a section.
#![tactic(auto)]

ghost use Rattle.std.specs.Prelude.{◌≡◌, ◌+◌, ◌<◌, None, Some, replicate, slice_set, take};
ghost use Rattle.column.specs.Answer.{SetAnswer, SectionAnswer, Lowest, Place};
ghost use Rattle.column.specs.Loads.{EachInRange};

use loads::section_loads;
use refusals::Refusal;
use storeys::Storey;

pub mod example;
mod loads;
mod storeys;
#[cfg(test)]
mod tests;

// The place of a storey in a column, from 0 at the top; refused where there is no such storey.
fn place_of(storey: u64) -> Result<usize, Refusal>
    ensures { Place storey result }
{
    if !(1..=40).contains(&storey) {
        return Err(Refusal::ColumnValue);
    }
    Ok(storey as usize - 1)
}

// A column of 40 storeys, some of them set.
#[derive(Drop)]
pub struct Column {
    storeys: [Option<Storey>; 40],
}

impl Column {
    // A column with no storey set.
    pub fn new() -> Column
        ensures { result.storeys ≡ replicate 40 None }
    {
        Column {
            storeys: [None; 40],
        }
    }

    // Puts a storey into a place.
    fn put(&mut self, place: usize, storey: Storey)
        requires { place < 40 }
        ensures { self.new.storeys ≡ slice_set self.old.storeys place (Some storey) }
    {
        self.storeys[place] = Some(storey);
    }

    // Sets a storey, 1 at the top, or changes one that is set. A value outside its range is refused, and then nothing changes.
    // Kept: class, area and load are three parameters here alone, since `Storey::new` makes one value of them at once.
    pub fn set(&mut self, storey: u64, class: u64, area: u64, load: u64) -> Result<(), Refusal>
        ensures { SetAnswer storey class area load self.old.storeys self.new.storeys result }
    {
        let place = place_of(storey)?;
        let storey = Storey::new(class, area, load)?;
        self.put(place, storey);
        Ok(())
    }

    // The storeys down to a place.
    fn down_to(&self, place: usize) -> &[Option<Storey>]
        requires { place < 40 }
        ensures { result.now ≡ take (place + 1) self.now.storeys }
    {
        &self.storeys[..=place]
    }

    // The full and the reduced load on the section below a storey, in units of 0.00000001 N.
    // Kept: a pair and no struct: it is taken apart at once by each caller, and the worked example states two of them in one equation.
    pub fn section(&self, storey: u64) -> Result<(u64, u64), Refusal>
        ensures loads { SectionAnswer storey self.now.storeys result }
        ensures ranges { EachInRange self.now.storeys }
    {
        let last = place_of(storey)?;
        Ok(section_loads(self.down_to(last)))
    }

    // The number of the lowest storey that is set, or 0 where none is.
    // Kept: 0 where no storey is set, so that `1..=lowest` is empty then; no storey has the number 0.
    pub fn lowest(&self) -> u64
        ensures { Lowest self.now.storeys result }
    {
        let last = self.storeys.iter().rposition(|storey| storey.is_some());
        last.map_or(0, |place| place as u64 + 1)
    }
}
