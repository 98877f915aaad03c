// The answer to a question.
use crate::picks::Pick;

// The worst effect, and a choice that comes to it: a pick for each record, in the order of the records. Picks past the last record mean nothing.
// Kept: 32 picks, whatever the number of records, since an answer is handed back by value and the search has no heap.
#[derive(Clone, Copy)]
pub struct Answer<E> {
    pub effect: E,
    pub picks: [Pick; 32],
}
