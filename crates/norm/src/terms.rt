// How long a load acts.
#[derive(Clone, Copy, PartialEq, Eq, Debug)]
pub enum Term {
    // long-term
    Long,
    // short-term
    Short,
}
