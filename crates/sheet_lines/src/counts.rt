// How many bodies of each kind there are.
#[derive(Clone, Copy, Debug, PartialEq)]
pub struct Counts {
    pub permanent: u64,
    pub long_term: u64,
    pub short_term: u64,
    pub special: u64,
}
