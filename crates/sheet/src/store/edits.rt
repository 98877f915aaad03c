// Opening a sheet, and the calls that change it.
ghost use Rattle.std.specs.Prelude.{◌≡◌, min, [], vec_capacity};
ghost use Rattle.sheet.specs.Held.{held, places_of};
ghost use Rattle.sheet.specs.Ledger.{Performs};
ghost use Rattle.sheet.specs.declared.changes.Change.TheVariants.{Enter, Alter, Strike};

use super::Sheet;
use crate::changes::Entry;
use crate::checks::{checked, number_in, place_of, position};
use effect::Effect;
use loads::Record;
use refusals::Refusal;

impl<E: Effect> Sheet<E> {
    // A blank sheet. Its places are the smallest of the number asked for, the capacity of the memory, and 32.
    // Kept: memory and places are two parameters, here and where one opens a sheet from a text: the memory is moved in, the number is each caller's own.
    pub fn open(memory: Vec<Record<E>>, places: usize) -> Sheet<E>
        ensures blank { held result ≡ [] }
        ensures places { places_of result ≡ min (min places (vec_capacity memory)) 32 }
    {
        let mut records = memory;
        records.clear();
        let places = places.min(records.capacity()).min(32);
        Sheet { places, records }
    }

    // The number of places.
    pub fn places(&self) -> usize
        ensures { result ≡ places_of self.now }
    {
        self.places
    }

    // The records, in their order.
    pub fn records(&self) -> &[Record<E>]
        ensures { result.now ≡ held self.now }
    {
        self.records.as_slice()
    }

    // Adds a record at the end.
    // Kept: that a call leaves the number of places is a clause of each call: it is said of two moments, and an invariant speaks of one.
    pub fn enter(&mut self, entry: Entry<E>) -> Result<(), Refusal>
        ensures ledger { Performs E.means (places_of self.old) (held self.old) (Enter entry) result (held self.new) }
        ensures places { places_of self.new ≡ places_of self.old }
    {
        let kind = checked(self.records.as_slice(), None, &entry)?;
        if position(self.records.as_slice(), entry.number).is_some() {
            return Err(Refusal::NumberTaken);
        }
        if self.is_full() {
            return Err(Refusal::SheetFull);
        }
        self.append(entry.record(kind));
        Ok(())
    }

    // Replaces all of a record but its number and its place.
    pub fn alter(&mut self, entry: Entry<E>) -> Result<(), Refusal>
        ensures ledger { Performs E.means (places_of self.old) (held self.old) (Alter entry) result (held self.new) }
        ensures places { places_of self.new ≡ places_of self.old }
    {
        let kind = checked(self.records.as_slice(), Some(entry.number), &entry)?;
        let place = place_of(self.records.as_slice(), entry.number)?;
        self.put(place, entry.record(kind));
        Ok(())
    }

    // Removes a record; those after it move up.
    pub fn strike(&mut self, number: u64) -> Result<(), Refusal>
        ensures ledger { Performs E.means (places_of self.old) (held self.old) (Strike number) result (held self.new) }
        ensures places { places_of self.new ≡ places_of self.old }
    {
        if !number_in(number) {
            return Err(Refusal::RecordNumber);
        }
        let place = place_of(self.records.as_slice(), number)?;
        self.take_out(place);
        Ok(())
    }
}
