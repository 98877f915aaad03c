// Memory for the records of a text.
use effect::{N, NM};
use loads::Record;

// For either effect type, since the text says which it has.
#[derive(Drop)]
pub struct Memory {
    pub forces: Vec<Record<N>>,
    pub moments: Vec<Record<NM>>,
}
