// A sheet and its memory.
ghost use Rattle.std.specs.Prelude.{◌≤◌, vec_len, vec_capacity};

use loads::Record;

mod edits;
mod places;

// The records in the order of their entry, over memory that the caller reserved. At most 32 places of it are used.
#[derive(Drop)]
pub struct Sheet<E: Copy> {
    places: usize,
    records: Vec<Record<E>>,
    ghost room: { (vec_len records ≤ places) × (places ≤ vec_capacity records) × (places ≤ 32) },
}
