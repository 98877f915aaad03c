// What is done at a place of a sheet.
ghost use Rattle.std.specs.Prelude.{◌≡◌, ◌<◌, ◌≤◌, [], ◌∷◌, ◌++◌, length, Decides, slice_set};
ghost use Rattle.std.specs.List.{remove};
ghost use Rattle.sheet.specs.Held.{held, places_of};

use super::Sheet;
use effect::Effect;
use loads::Record;

impl<E: Effect> Sheet<E> {
    pub(super) fn is_full(&self) -> bool
        ensures { Decides result (places_of self.now ≤ length (held self.now)) }
    {
        self.records.len() >= self.places
    }

    // Adds a record at the end.
    pub(super) fn append(&mut self, record: Record<E>)
        requires { length (held self.old) < places_of self.old }
        ensures records { held self.new ≡ held self.old ++ «record» ∷ [] }
        ensures places { places_of self.new ≡ places_of self.old }
    {
        self.records.push_reserved(record);
    }

    // Puts a record in the place of another.
    pub(super) fn put(&mut self, place: usize, record: Record<E>)
        requires { place < length (held self.old) }
        ensures records { held self.new ≡ slice_set (held self.old) place «record» }
        ensures places { places_of self.new ≡ places_of self.old }
    {
        self.records[place] = record;
    }

    // Removes a record; those after it move up.
    pub(super) fn take_out(&mut self, place: usize)
        requires { place < length (held self.old) }
        ensures records { held self.new ≡ remove (held self.old) place }
        ensures places { places_of self.new ≡ places_of self.old }
    {
        self.records.remove(place);
    }
}
