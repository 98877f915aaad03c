// The log of a run.
use crate::outcomes::Outcome;
use effect::Effect;
use loads::Record;

// What a call came to, and how many records the sheet held after it.
#[derive(Clone, Copy)]
pub struct Turn<E> {
    pub outcome: Outcome<E>,
    pub held: usize,
}

// How many records the sheet held when it was opened, a turn for each call, and the records that the sheet held after each, one page after another.
// Kept: one list of pages beside the turns: the caller lends the memory of both, and a list in each turn would allocate at every call.
#[derive(Drop)]
pub struct Log<E: Effect> {
    pub opened: usize,
    pub turns: Vec<Turn<E>>,
    pub pages: Vec<Record<E>>,
}
