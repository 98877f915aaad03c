// Loads as another language hands them in.
ghost use Rattle.std.specs.Prelude.{◌≡◌};
ghost use Rattle.bench_entry.specs.Entries.{record_of, Reads, ReadsAll};

use effect::N;
use loads::{Kind, Load, Record};

// A load: the letter of its kind and its numbers, with a force in newtons as its effect.
// Kept: a struct of C with the fields of a `Load`, since C has neither the kinds nor the effect types.
#[derive(Clone, Copy, Default)]
#[repr(C)]
pub struct Entry {
    pub letter: u8,
    pub number: u64,
    pub group: u64,
    pub upper: u64,
    pub lower: u64,
    pub class: u64,
    pub area: u64,
    pub storeys: u64,
    pub force: i64,
}

// The record of a kind with the numbers of an entry.
fn record(kind: Kind, entry: &Entry) -> Record<N>
    ensures { result ≡ record_of kind entry.now }
{
    Record {
        number: entry.number,
        kind,
        load: Load {
            group: entry.group,
            upper: entry.upper,
            lower: entry.lower,
            class: entry.class,
            area: entry.area,
            storeys: entry.storeys,
            effect: N { force: entry.force },
        },
    }
}

// The record that an entry writes; None where its letter stands for no kind.
fn read(entry: &Entry) -> Option<Record<N>>
    ensures { Reads entry.now result }
{
    let kind = Kind::try_from(char::from(entry.letter)).ok()?;
    Some(record(kind, entry))
}

// The records that entries write, in their order; None where there are more than 32 or one writes none. Records past the last entry mean nothing.
// Kept: the records stand in an array of 32 beside the number of entries, since the search has no heap.
pub(crate) fn read_all(entries: &[Entry]) -> Option<[Record<N>; 32]>
    ensures { ReadsAll entries.now result }
{
    if entries.len() > 32 {
        return None;
    }
    let blank = record(Kind::Permanent, &Entry::default());
    let mut records = [blank; 32];
    // Kept: the place is counted, since of a zip over `records.iter_mut()` the proof leaves open what `records` holds after the loop.
    for (k, entry) in entries.iter().enumerate() {
        records[k] = read(entry)?;
    }
    Some(records)
}
