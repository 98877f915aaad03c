// How many loads a combination takes.
ghost use Rattle.std.specs.Prelude.{◌≡◌};
ghost use Rattle.norm.specs.Percentages.{taken};

use crate::terms::Term;

// The numbers of long-term and of short-term loads.
#[derive(Clone, Copy, PartialEq, Eq, Debug)]
pub struct Taken {
    pub long: u64,
    pub short: u64,
}

impl Taken {
    // The number of the loads of a term.
    pub fn of(self, term: Term) -> u64
        ensures { result ≡ taken term self.long self.short }
    {
        match term {
            Term::Long => self.long,
            Term::Short => self.short,
        }
    }
}
