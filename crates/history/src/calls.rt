// What may be asked of a sheet once it is open.
use combination::Question;
use sheet::Change;

#[derive(Clone, Copy)]
pub enum Call<E> {
    Change(Change<E>),
    Ask(Question),
}

// The calls without the special question, for a norm that has no answer to it.
// Kept: an enum and a function of their own beside `Call` and `perform`: one of both would need a trait, with laws, for what a norm can be asked.
#[derive(Clone, Copy)]
pub enum BasicCall<E> {
    Change(Change<E>),
    Basic,
}
